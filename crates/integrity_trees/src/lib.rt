//! The check of an image's trees, page by page, and what a checked tree has. It promises that a tree that
//! passes is sound and in order; that each of its entries is a record of as many values as it may have, and
//! each cell of a table, with rowids or without, a row of the table with values of its columns; that the
//! counts are exactly what the tree has; that all pages and overflow chains of the tree are marked as used;
//! and that a fault's condition is broken. Over an index in order it gives the values of all entries, each
//! once and in order, and of a checked one how many different values its first columns have.
//!
//! The modules, in the order in which data passes them: `tree_walk` (what walks over trees of either kind
//! share), `wanted_entries` (the entries that an index has to have for the rows of its table), `entry_rows`
//! (the entries of an index, as rows of their values), `index_walk` (a walk over the tree of an index, or of
//! a table without rowids), `entry_prefixes` (the entries of an index, each compared with the one before it),
//! `primary_walk` (the check of the tree of a table without rowids) and `table_walk` (the check of a table's
//! tree).
#![tactic(auto)]

pub mod entry_prefixes;
mod entry_rows;
pub mod index_walk;
pub mod primary_walk;
mod table_walk;
pub mod tree_walk;
pub mod wanted_entries;

pub use entry_prefixes::{Prefixes, read_prefixes};
pub use entry_rows::{all_entries, entry_row, has_entry};
pub use index_walk::{EntryWidths, IndexTree, check_counted, check_index};
pub use primary_walk::check_primary;
pub use table_walk::{all_rows, check_table};
pub use tree_walk::{TreeCounts, child_within};
