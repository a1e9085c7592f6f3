//! The check that an index has exactly the entries that the rows of its table require. It promises, of a
//! table and an index whose trees were checked, to report whether the index has exactly the entries of those
//! rows of which its condition is true: the values of its columns, and the rowid, or of a table without
//! rowids the columns of the PRIMARY KEY that aren't indexed. No row of a table with rowids is looked up: the
//! entries of a run of rows are gathered in a batch, and the index is read once for each batch.
//!
//! The modules, in the order in which data passes them: `entry_batches` (required entries, a batch at a time,
//! and a lookup of an entry in a batch), `index_batches` (the entries of an index, compared with a batch),
//! `index_rows` (an index, compared with the rows of its table) and `row_batches` (an index, compared with
//! the rows of its table a batch at a time).
#![tactic(auto)]

pub mod entry_batches;
mod index_batches;
pub mod index_rows;
mod row_batches;

pub use index_rows::TableIndex;
pub use row_batches::is_index_of;
