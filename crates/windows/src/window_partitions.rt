//! The rows that a window takes, split into its partitions. It promises that each part has just the rows of
//! one partition of the definition, each with its number among the rows that are given, that each row is in
//! one of them, and that equal rows keep their order, so that all windows pair them alike.
//!
//! Its modules, in order: `order` (rows in the order of terms on them) and `partitions`.
mod order;
mod partitions;

pub use order::ordered;
pub use partitions::{Partitions, partitioned};
