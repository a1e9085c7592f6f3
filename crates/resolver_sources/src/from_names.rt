//! FROM whole, by its names. It promises that its sources, joined from the left, and the columns that they
//! show together are exactly those of the definition of name resolution, where what resolves the queries in
//! it does, and that a fault is given exactly where the definition has it.
//!
//! Its modules, in order: `queries` (what resolves the queries that a query holds) and `froms` (FROM).
mod froms;
mod queries;

pub use froms::from;
pub use queries::Queries;
