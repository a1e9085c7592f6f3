//! The rows of a table, one by one. It promises that a cursor over a stored table gives exactly its rows, by
//! ascending rowid or in the order of its key, of each the columns that are read, for no more pages than its
//! tree has, whatever asks for pages in between; and that over a steady source the table hasn't changed.
//!
//! Its modules, in order: `buffer` (values over those of an earlier row), `cells` (a cell's columns, after
//! the front of a row) and `rows` (from one row to the next).
mod buffer;
mod cells;
mod rows;

pub use buffer::{front_of, put_value};
pub use cells::{payload_of, put_columns};
pub use rows::{cell_at, first_row, next_row};
