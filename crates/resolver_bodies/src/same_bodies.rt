//! Whether two queries inside expressions are the same. It promises that they are reported to be the same
//! exactly where they are equal, as the answer of a query is found again by the query.
//!
//! Its modules, in order: `selects` (SELECTs without their FROM) and `bodies` (whole queries).
mod bodies;
mod selects;

pub use bodies::same_query;
