//! The table that a CREATE TABLE makes, with its keys. It promises that `table_from` answers only with the
//! table that the text says, and none only where it makes none; that a row of the schema says one table at
//! most; that `keys_of` gives all keys that the text declares, and `automatic_indexes` exactly the indexes
//! that SQLite makes for them. Names and collations are compared here for the crates above too. A text makes a
//! table that is STRICT, with columns of the types INT, INTEGER, TEXT and BLOB, at most one PRIMARY KEY, no
//! two keys of the same columns, and without DESC, AUTOINCREMENT, and a collation other than BINARY; WITHOUT
//! ROWID, PRIMARY KEY is its only key, and the rows are found by it.
//!
//! The modules, in the order in which data passes them: `declared_keys` (the keys that a CREATE TABLE
//! declares), `served` (constraints and options of a table), `keys` (which keys a table may have, the column
//! that is the rowid, and the positions of the PRIMARY KEY), `missing` (what rows that are older than a
//! column have in it), `types` (of columns), `created` (the table of a text), `laws`, and `table_keys` (the
//! indexes that SQLite makes for the keys of a table).
#![tactic(auto)]

mod created;
mod declared_keys;
mod keys;
pub mod laws;
mod missing;
mod served;
pub mod table_keys;
mod types;

pub use created::{is_same_name, table_from};
pub use declared_keys::keys_of;
pub use served::{is_binary, is_rowless};
pub use table_keys::{AutomaticIndex, automatic_indexes};
pub use types::is_integer;
