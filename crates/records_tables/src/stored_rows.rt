//! A record as a row of its table, and the cells of one page of a table's tree. It promises that what a page
//! shows of its cells and keys is tested, that a payload is read as the row that it is, whole or value by
//! value, that each cell of a leaf that passes is a row of the table, and that a fault's condition is broken.
//!
//! Its modules, in order: `keys` (the keys of one page), `row_reader` (single values of a row), `rows` (a
//! record as a row, and the rows of a leaf) and `leaf` (a whole leaf, each cell of which is read once).
mod keys;
mod leaf;
mod row_reader;
mod rows;

pub use keys::read_head;
pub use leaf::is_leaf_of_rows;
pub use row_reader::RowReader;
pub use rows::{RowView, check_rows, fits_column, payload_of, read_row};
