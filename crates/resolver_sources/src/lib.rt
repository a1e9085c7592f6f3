//! The sources of FROM, and the queries inside expressions, resolved. It promises that a FROM with the
//! columns that its sources show together, the queries inside the expressions of a SELECT, and one SELECT
//! with its FROM are exactly those of the definition of name resolution, where what resolves the queries in
//! them does, and that a fault is given exactly where the definition has it.
//!
//! The modules, in the order in which data passes them: `source_names` (the sources of a FROM, by their
//! names), `from_names` (FROM whole, by its names), `inner_names` (the queries inside the expressions of a
//! SELECT, by their names) and `single_names` (one SELECT with its FROM, by its names).
#![tactic(auto)]

mod from_names;
mod inner_names;
mod single_names;
mod source_names;

pub use from_names::Queries;
pub use inner_names::Inners;
pub use single_names::{NamedSingle, single};
pub use source_names::{Known, Queried, copy_names};
