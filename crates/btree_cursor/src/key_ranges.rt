//! Ranges of the keys of a tree. It promises that the entries between the start and the end of a range are
//! exactly those that its conditions let through, whether columns ascend or descend and whatever NULLs they
//! hold, and that a search of these gives exactly the rows on which its conditions are true, each as often.
//!
//! Its modules, in order: `ranges` (a range and its two ends) and `laws`.
pub mod laws;
mod ranges;

pub use ranges::{Bound, End, KeyRange, descends_at};
