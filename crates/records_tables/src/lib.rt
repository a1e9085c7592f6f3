//! Records as the rows of stored tables, with rowids or without. It promises that the values of a row are
//! read one by one from its payload, each at its column's position in the record, whatever other values it
//! has; that a stored table of either kind is described in one way: as a tree of its kind, whose cells from
//! left to right are its rows; that what a page shows of its cells and keys is tested, each cell of a leaf
//! that passes is a row of the table, and a record that passes is a row with values of its columns; and that
//! a fault's condition is broken.
//!
//! The modules, in the order in which data passes them: `stored_rows` (a record as a row of its table, and
//! the cells of one page of a table's tree), `primary_rows` (a record as a row of a table without rowids,
//! which has the columns of the PRIMARY KEY first), `places` (where a record without rowids has a column),
//! `key_reader` (single values of such a row), `value_reader` (single values of a row of either kind) and
//! `laws`.
#![tactic(auto)]

mod key_reader;
pub mod laws;
mod places;
pub mod primary_rows;
mod stored_rows;
mod value_reader;

pub use key_reader::KeyReader;
pub use primary_rows::{RecordOrder, check_primary_row, column_value};
pub use stored_rows::{
    RowReader, RowView, check_rows, is_leaf_of_rows, payload_of, read_head, read_row,
};
pub use value_reader::{ValueReader, tree_kind};
