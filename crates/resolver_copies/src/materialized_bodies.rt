//! Copies of queries without subqueries: over the tables and the rows found for each source that is no table,
//! with the values of each inner query in its place. It promises that which sources and queries these are,
//! and the copy, are exactly as the definition has them.
//!
//! Its modules, in order: `parts` (what is computed first), `answers` (the values of an inner query) and
//! `copies`.
mod answers;
mod copies;
mod parts;

pub use answers::answer;
pub use copies::materialized_body;
pub use parts::{inner_queries, kept_sources, last_answers};
