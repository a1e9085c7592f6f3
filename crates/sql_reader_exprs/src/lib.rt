//! The readers of expressions. It promises that each reads exactly what the grammar's reader does, and
//! refuses exactly what that refuses, unless memory runs out. Where a further construct begins, a reader
//! passes it to what reads phrases within it (`Inner`), so that none calls itself.
//!
//! The modules, in the order in which data passes them: `lookahead` (what is at the front of the tokens, by
//! which readers choose their steps), `clause_reader` (phrases without expressions), `window_reader` (lists
//! of expressions, windows, and what else follows a call), `case_reader` (CASE), `call_reader` (calls, and
//! what else begins with a name) and `expr_reader` (an expression, with the operators in it).
#![tactic(auto)]

mod call_reader;
mod case_reader;
mod clause_reader;
mod expr_reader;
mod lookahead;
mod window_reader;

pub use clause_reader::{Read, a_name, alias, columns, limit, names};
pub use expr_reader::expr_by;
pub use lookahead::{
    Beginning, Joining, OR_LEVEL, Wants, after_group_by, beginning_at, compound_at, explained_at,
    join_at, quantifier_at,
};
pub use window_reader::{Inner, list, order, present, window};
