//! The frames of windows: the rows of a sequence that a function sees from one of its rows. It promises that
//! a frame is exactly that of the definition, for ROWS, RANGE and GROUPS, every edge and every EXCLUDE, as
//! three ranges of places, and that its rows are the three slices of the sequence.
//!
//! Its modules, in order: `edges` (how far away an edge is, and a row compared with an edge of RANGE), `cuts`
//! (the first place that an edge leaves in the frame or out of it), `excluded` (what EXCLUDE takes out),
//! `ranges` (the frame), and `laws`.
mod cuts;
mod edges;
mod excluded;
pub mod laws;
mod ranges;

pub use ranges::{Ranges, ranges_of};
