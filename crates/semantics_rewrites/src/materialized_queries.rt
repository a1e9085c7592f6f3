//! Queries without subqueries: the rows of each source that is no table are a table after the others, and the
//! values of each inner query take its place. It promises that over the database with these tables it permits
//! only lists of rows that the query permits, and reaches nothing that the query can't reach.
//!
//! It has definitions alone, and `laws` of them.
pub mod laws;
