//! Queries over the schema table as one more table, after those of the catalog: wherever a query names the
//! schema table, at any depth, the table at a given position takes its place. It promises that all else of
//! the query stays as it is.
//!
//! Its one module is `settling`.
mod settling;

pub use settling::settle_body;
