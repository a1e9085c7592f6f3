//! The check of an image. It promises that an image that passes has no condition broken (of its trees' pages,
//! order and depth, of each chain of overflow pages, of each record, of each value, of the freelist, of the
//! schema's rows, and of the entries of each index); that the check then gives the tables that the image
//! denotes with their rows, and its indexes, and counts exactly what their trees have; and that a fault's
//! condition is broken. Tables have rowids, or are found by their PRIMARY KEY.
//!
//! The modules, in the order in which data passes them: `trees` (those of all tables, and the schema's rows),
//! `index_trees` (each index alone), `entries` (those of each index, compared with the rows of its table),
//! `keys` (those of tables without rowids), `checked` (the whole image), `laws`, and `searched` (what the check
//! leaves for searches).
#![tactic(auto)]

mod checked;
mod entries;
mod index_trees;
mod keys;
pub mod laws;
pub mod searched;
mod trees;

pub use checked::{Checked, check};
pub use index_trees::IndexCounts;
pub use integrity_trees::TreeCounts;
pub use keys::KeyCounts;
pub use records_tables::RowReader;
