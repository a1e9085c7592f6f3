//! The parts of expressions, in the order in which they are written. It promises that all are found that the
//! definition of name resolution has, each once and in its order; those of a query inside an expression are
//! none of them.
//!
//! Its modules: `expressions` (of one) and `clauses` (of the clauses of a SELECT).
mod clauses;
mod expressions;

pub use clauses::{core_parts, parts_behind_groups};
pub use expressions::parts;
