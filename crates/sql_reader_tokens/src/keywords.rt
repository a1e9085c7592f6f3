//! The words that the grammar of SELECT, that of CREATE, or both of them reserve. It promises that a word is
//! reported as a keyword of a grammar exactly where the grammar reserves one that is spelt so, in letters of
//! either case, and that each has one spelling.
//!
//! Its one module is `keyword`.
mod keyword;

pub use keyword::{Grammar, Keyword};
