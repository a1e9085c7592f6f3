//! Whether two expressions are one tree. It promises that they are reported to differ exactly where their
//! trees do, where a list of literals and a set of these values in the same order are one.
//!
//! Its modules, in order: `members` (lists of literals, and sets of values) and `equality` (of two
//! expressions).
mod equality;
mod members;

pub use equality::{same_tree, same_tree_lists};
