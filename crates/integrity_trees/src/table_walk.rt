//! The check of a table's tree, and the rows of one that was checked. It promises that a tree that passes is
//! sound and in order, that each cell is a row of the table with values of its columns, that the counts are
//! exact, that all pages and chains are marked, and that a fault's condition is broken.
//!
//! Its modules, in order: `walk` (the tree, from its root down) and `rows` (its rows).
mod rows;
mod walk;

pub use rows::all_rows;
pub use walk::check_table;
