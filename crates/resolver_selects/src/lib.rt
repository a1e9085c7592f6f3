//! The names of one SELECT after its FROM, resolved. It promises that what it computes, its clauses, its
//! result columns and their names, the terms of ORDER BY, its windows and the calls over them are exactly
//! those of the definition of name resolution, and that a fault is given exactly where the definition has it.
//!
//! The modules, in the order in which data passes them: `window_names` (the windows of a SELECT),
//! `window_calls` (the calls over windows), `select_clauses` (WHERE, HAVING, GROUP BY and WINDOW),
//! `result_columns` (the result columns), `behind` (result columns and ORDER BY, over the rows of FROM or of
//! groups) and `selects` (all of a SELECT).
#![tactic(auto)]

mod behind;
mod result_columns;
mod select_clauses;
mod selects;
mod window_calls;
mod window_names;

pub use selects::{NamedSelect, select};
pub use window_names::Defined;
