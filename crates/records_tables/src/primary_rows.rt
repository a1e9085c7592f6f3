//! A record as a row of a table without rowids, which has the columns of the PRIMARY KEY first. It promises
//! that a value is read at its column's position in the record, or is what an older row has there, and that a
//! record that passes is a row with values of its columns, or a fault's condition is broken.
//!
//! Its modules, in order: `numbers` (lists of numbers, each once), `order` (where a table's record has its
//! columns), `rows` (a record as a row) and `laws`.
pub mod laws;
mod numbers;
mod order;
mod rows;

pub use order::RecordOrder;
pub use rows::{check_primary_row, column_value};
