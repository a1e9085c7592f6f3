//! The entries of an index, as rows. Over an index in order it promises the values of all entries, each once
//! and in order, for no more pages than the tree has, and whether there is an entry with given values. Over
//! any tree a fault has its cause, and where no entry has overflow pages none is asked for.
//!
//! Its modules, in order: `rows` (the entries as rows) and `lookup` (an entry with given values).
mod lookup;
mod rows;

pub use lookup::has_entry;
pub use rows::{all_entries, entry_row};
