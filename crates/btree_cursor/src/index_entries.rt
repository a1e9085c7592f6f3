//! Searches in a page of an index in order. It promises how many entries come before what is sought, compared
//! by the key's columns alone, a descending one the other way round. An entry that can't be read is reported
//! with what is broken in it; overflow pages are asked for only by a cell that has them.
//!
//! Its modules, in order: `columns` (what is sought, and how it compares with the fields of an entry),
//! `entries` (an entry read in place) and `search` (where in a page the entries that are sought begin).
mod columns;
mod entries;
mod search;

pub use columns::IndexKey;
pub use entries::{cell_comes_before, record_fault};
pub use search::entry_boundary;
