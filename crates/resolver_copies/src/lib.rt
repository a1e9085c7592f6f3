//! Copies of resolved queries: over the schema table as one more table, or without subqueries.
//! It promises that each copy is exactly that of the definition, that all else of a query stays as it is
//! where the schema table is replaced, and that the sources that are no tables, and the inner queries, are
//! exactly those of the definition.
//!
//! The modules, in the order in which data passes them: `schema_bodies` (bodies over the schema table as one
//! more table, after those of the catalog), `schema_queries` (whole queries, as they are run),
//! `materialized_bodies` (bodies without subqueries, over the rows and values that were found for these) and
//! `materialized_queries` (whole queries without subqueries).
#![tactic(auto)]

mod materialized_bodies;
mod materialized_queries;
mod schema_bodies;
mod schema_queries;

pub use materialized_bodies::{answer, materialized_body};
pub use materialized_queries::materialized_query;
pub use schema_queries::with_schema_query;
