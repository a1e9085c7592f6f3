//! Queries rewritten with the same meaning: over the schema table as one more table of the catalog, and
//! without subqueries, whose rows and values are put in their places. It promises that over the database with
//! these tables a rewritten query permits only lists of rows that the query permits, and reaches nothing that
//! the query can't reach; and that a query over the schema table as one more table permits the same lists,
//! and is typed over its types.
//!
//! The modules, in the order in which data passes them: `schema_sources` (queries whose sources are all
//! tables, the schema table among them) and `materialized_queries` (queries without subqueries).
#![tactic(auto)]

pub mod materialized_queries;
pub mod schema_sources;
