//! Tables and their columns, as the crates that read rows see them. A table has a name, the page at the root
//! of its tree, its columns, and how its rows are found: by their rowids, with the column that is the rowid,
//! where there is one, or by the columns of its PRIMARY KEY, which are some of its own. It promises that what
//! a table or a copy of it says of itself is what it was made of, and that the schema's own table comes after
//! all tables of a catalog.
//!
//! The modules, in the order in which data passes them: `missing` (what rows that are older than a column
//! have in it), `row_key` (how rows are found), `table` (tables and columns) and `table_copies` (copies of
//! tables, and the tables of a catalog with the schema's own after them).
#![tactic(auto)]

mod missing;
mod row_key;
mod table;
mod table_copies;

pub use missing::Missing;
pub use row_key::RowKey;
pub use table::{Column, Table};
pub use table_copies::with_schema_table;
