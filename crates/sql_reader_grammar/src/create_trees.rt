//! The trees of CREATE texts, as written, without their quotes: `sql_reader_creates` makes them, and
//! `schema_keys` and `schema` give them a meaning. It promises nothing of them.
//!
//! Its one module is `create` (tables and indexes).
mod create;

pub use create::{
    Column, ColumnConstraint, ColumnType, CreateIndex, CreateTable, DefaultValue, IndexedColumn,
    KeyOrder, TableConstraint, TableOption,
};
