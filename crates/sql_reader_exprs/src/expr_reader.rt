//! The reader of an expression, with the operators in it. It promises that it reads exactly what the
//! grammar's reader does, and refuses exactly what that refuses, unless memory runs out.
//!
//! Its modules: `operators` (an expression), `operands` (what comes before its first operator), `joints`
//! (what follows a left operand) and `trees` (which makes their trees).
mod joints;
mod operands;
mod operators;
mod trees;

pub use operators::expr_by;
