//! The types of whole queries. It promises that the types of a query's result columns, where its ORDER BY is
//! typed too, are exactly those of the definition of types, and that a statement is taken, or refused with a
//! fault, exactly where the definition does so, unless memory runs out.
//!
//! Its modules, in order: `keys` (ORDER BY), `queries` (a query with its ORDER BY) and `statements` (a query,
//! with what has to be typed beside it).
mod keys;
mod queries;
mod statements;

pub use queries::query_types;
pub use statements::check_types;
