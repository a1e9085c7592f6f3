//! Windows, whole. It promises that each row gets exactly the value that the definition of windows gives it
//! for a call, in the order in which the rows are given, for any value substituted for an overflow; that
//! equal rows are paired with their values in one way for all calls; and that `Overflow` is returned only
//! where an expression of a call reaches an operation out of range on a row, or the number of a call leaves
//! 64 bits there as the definition says. Each window is evaluated in `n log n`; `evaluate_counted` reports
//! how many values were added to totals for it, at most one for each row, since the totals of frames are
//! differences of running ones.
//!
//! The modules, in the order in which data passes them: `window_entries` (the rows of a partition with the
//! values of a window's ORDER BY on them), `window_partitions` (the rows that a window takes, split into its
//! partitions), `frames` (the frames of windows), `first_values` (the first of the values at a set of
//! places), `window_totals` (totals and counts over frames), `window_values` (the values of window functions
//! that aren't aggregates), `window_extremes` (the least and the greatest values in ranges), `window_results`
//! (the values of one call along one partition's sequence), `parts` (one partition), `evaluated` (all rows),
//! `windowed` (the rows followed by their values) and `laws`.
#![tactic(auto)]

mod evaluated;
mod first_values;
pub mod frames;
pub mod laws;
mod parts;
mod window_entries;
mod window_extremes;
mod window_partitions;
mod window_results;
mod window_totals;
mod window_values;
mod windowed;

pub use evaluated::{evaluate, evaluate_all, evaluate_counted};
pub use windowed::windowed_rows;
