//! The index that a CREATE INDEX makes on its table, and those that SQLite makes for the table's keys. It
//! promises that `index_from` answers Ok only with the index that the text says, one at most, and unless
//! memory runs out refuses only a text that makes none; and that `KeyIndex` is the index for a key.
//!
//! Its modules, in order: `index_parts` (indexes and their columns), `places` (which columns of the table are
//! named), `others` (the PRIMARY KEY columns that entries have after the index's own, where the table has no
//! rowids), `conditions` (of partial indexes: typed expressions over the table's columns, of literals,
//! comparisons, IS, IN, BETWEEN, ISNULL, NOTNULL, AND, OR and NOT), `made` (the index of a text),
//! `key_indexes` (the indexes for keys), and `laws`.
mod conditions;
mod index_parts;
mod key_indexes;
pub mod laws;
mod made;
mod others;
mod places;

pub use index_parts::{Index, IndexedColumn};
pub use key_indexes::KeyIndex;
pub use made::index_from;
