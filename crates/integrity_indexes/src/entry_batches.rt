//! Entries that rows of a table require in an index, a batch at a time. It promises that a batch has exactly
//! the entries that were put into it, each by its row's rowid and a code of its values, and that two rows of
//! values have one code only where they are the same. Codes are joined, so an entry costs no allocation.
//!
//! Its modules, in order: `codes` (the code of values), `batch` (the entries, and a lookup of one) and
//! `laws`.
mod batch;
mod codes;
pub mod laws;

pub use batch::Batch;
pub use codes::push_value;
