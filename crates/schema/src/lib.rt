//! The catalog of an image: the tables and indexes that the rows of its schema describe. It promises that a
//! catalog has exactly those, and that, unless memory runs out, a schema is refused only for a reason:
//! `SchemaRow` where a row isn't as SQLite writes it, an index that SQLite makes for a key of a table has no
//! row, or an index without a text is none of these; `SchemaText` where a table's or an index's text can't be
//! read, and `UnsupportedObject` where such a text says what is left out, or a row is a view's. Triggers are
//! ignored. An index is given only where its text makes it on its table, one at most, with its condition as a
//! typed expression.
//!
//! The modules, in the order in which data passes them: `indexes` (the index that a CREATE INDEX makes, and
//! those that SQLite makes for a table's keys), `objects` (what a row has of an object), `keyed` (tables with
//! the indexes that their keys require), `table_said` (the table that a row describes), `index_said` (the
//! index that one describes), `doubles` (names that two rows have), `whole` (the rows of the schema), and
//! `laws`.
#![tactic(auto)]

mod doubles;
mod index_said;
pub mod indexes;
mod keyed;
pub mod laws;
mod objects;
mod table_said;
mod whole;

pub use indexes::Index;
pub use whole::Catalog;
