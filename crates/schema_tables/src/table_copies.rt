//! Copies of tables, and the tables of a catalog with the schema's own after them. It promises that a copy
//! says of itself what its table says, and that the schema's own table comes after all the others.
//!
//! Its modules, in order: `copies` (tables and their columns) and `whole` (those of a catalog).
mod copies;
mod whole;

pub use whole::with_schema_table;
