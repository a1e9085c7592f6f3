//! The term that an expression is, at a place of a SELECT. It promises that it is made exactly where the
//! definition of name resolution has one, and that one, and that a fault is given exactly where the
//! definition has it.
//!
//! Its modules, in order: `place` (what a place says of a part, and which inner queries there are), `leaves`
//! (expressions without operands) and `terms` (the term of any expression).
mod leaves;
mod place;
mod terms;

pub use place::{InnerQueries, Place};
pub use terms::{all_terms, term};
