//! The entries of an index of a table with rowids, compared with a batch of those that its rows require:
//! whether each ends with a rowid and, where the batch is for this rowid, is in the batch. Pages are read
//! from left to right, each once, and of an entry that the batch isn't for the rowid alone.
//!
//! Its modules, in order: `sought` (a batch, and which rowids it is for), `fields` (the bytes of an entry),
//! `entries` (an entry of a page) and `tree` (all entries of an index).
mod entries;
mod fields;
mod sought;
mod tree;

pub use sought::SoughtBatch;
pub use tree::are_in_batch;
