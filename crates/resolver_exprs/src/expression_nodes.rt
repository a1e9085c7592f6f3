//! The terms that operators and functions make of the terms of their operands: one function for each kind of
//! expression. It promises that each is the term that the definition of name resolution makes of its parts.
//!
//! Its modules: `operators`, `members` (IN and EXISTS), `cases` (CASE) and `functions`.
mod cases;
mod functions;
mod members;
mod operators;

pub use cases::{case, when_then};
pub use functions::called;
pub use members::{among, among_answer, exists};
pub use operators::{between, binary, postfix, prefix};
