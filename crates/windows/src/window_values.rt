//! The values of window functions that aren't aggregates. It promises that each is exactly that of the
//! definition of windows at its place of a sequence: numbers and ranks from the peer groups, lag and lead
//! from the places around, first, last and nth value from the three ranges of a frame.
//!
//! Its modules: `ranks` (of a place) and `lookups` (a value of another row).
mod lookups;
mod ranks;

pub use lookups::{first_value, lag, last_value, lead, nth_value};
pub use ranks::{dense_rank, ntile, rank, row_number};
