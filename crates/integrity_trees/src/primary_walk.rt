//! The check of the tree of a table without rowids, and its rows. It promises that a tree that passes is
//! sound and in the order of the table's key, no two rows with one key, each entry is a row of the table with
//! values of its columns, all pages and chains are marked, and a fault's condition is broken.
//!
//! Its modules, in order: `rows` (each entry as a row), `check` (the tree and its rows) and `laws`.
mod check;
pub mod laws;
mod rows;

pub use check::check_primary;
