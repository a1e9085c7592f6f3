//! The reader of expressions, SELECTs and queries in one another, at any depth: the readers of single phrases
//! tied into one cycle by an argument (`Inner`). It promises that each phrase is read exactly as the
//! grammar's reader reads it, and refused exactly where that refuses it, unless memory runs out.
//!
//! Its modules: `sources` (a text and its tokens), `reading` (the cycle, a statement, and an expression
//! alone), `within` (what reads phrases in one more construct) and `trees` (a phrase, over what reads those
//! in it).
mod reading;
mod sources;
mod trees;
mod within;

pub use reading::{MAX_LEVELS, expression_within, statement_within};
pub use sources::Source;
