//! Whether two queries are written alike. It promises that two queries that are reported to be are one tree,
//! with the same names, literals and source texts; that two which differ only in where they are in memory are
//! found to be alike is tested.
//!
//! Its modules, in order: `names` (names and what else has no tree in it) and `queries` (expressions and
//! queries, node by node).
mod names;
mod queries;

pub use queries::same_query;
