//! The indexes that SQLite makes for the keys of a table. It promises that `automatic_indexes` gives exactly
//! those, with their numbers: one for each key, but none and no number for the PRIMARY KEY of one column that
//! is INTEGER, and none for that of a table without rowids.
//!
//! Its modules, in order: `automatic` (the indexes for keys) and `laws`.
mod automatic;
pub mod laws;

pub use automatic::{AutomaticIndex, automatic_indexes};
