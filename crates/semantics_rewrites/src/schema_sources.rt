//! Queries whose sources are all tables: where the schema table is named, a table after those of the catalog
//! that has its rows takes its place. It promises that such a query permits the same lists of rows over the
//! database with that table, reaches there only what the query can reach, and is typed over its types.
//!
//! It has definitions alone, and `laws` of them.
pub mod laws;
