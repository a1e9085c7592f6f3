//! Whole queries, by their names. It promises that a query, one SELECT or several combined from the left,
//! with its ORDER BY and the queries in it at any depth, is exactly that of the definition of name
//! resolution, and that a fault is given exactly where the definition has it, unless memory runs out.
//!
//! Its modules, in order: `compounds` (compound SELECTs, over what resolves the queries in them), `within`
//! (what resolves the queries in a query) and `nested` (the cycle of these).
mod compounds;
mod nested;
mod within;

pub use nested::{MAX_LEVELS, query_within};
