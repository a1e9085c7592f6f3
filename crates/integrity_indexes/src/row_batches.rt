//! An index, compared with the rows of its table a batch of rows at a time. It promises what `index_rows`
//! does, and looks up no row of a table with rowids: the index is read once for each batch, of some
//! megabytes. Its entries differ, so where each is required and they are as many, they are the required ones.
//!
//! Its modules, in order: `wanted` (the code of the entry that a row requires), `runs` (the batch of a run of
//! rows, and the index compared with it) and `comparison` (all rows against all entries).
mod comparison;
mod runs;
mod wanted;

pub use comparison::is_index_of;
