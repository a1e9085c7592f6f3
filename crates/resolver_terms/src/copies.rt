//! Copies of what a SELECT computes, in which others may stand for the columns and the answers that its
//! expressions name. It promises that a copy is the same tree, but for these leaves.
//!
//! Its modules, in order: `terms` (copies with other leaves) and `same` (copies of the same tree).
mod same;
mod terms;

pub use same::{copy_aggregates, copy_calls, copy_grouping, copy_order, copy_select, copy_window};
pub use terms::{order_with, select_with};
