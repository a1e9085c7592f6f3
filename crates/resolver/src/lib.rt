//! Names and types of a statement over the tables of a catalog. It promises that `resolve` answers Ok only
//! with the query that a statement is over these tables, of which there is one at most, and which is typed;
//! that a fault is given only where its condition holds: the names or the types of the statement give it.
//!
//! The modules, in the order in which data passes them: `query_names` (whole queries, by their names),
//! `statement_names` (whole statements, by their names), `query_types` (the types of whole queries), `known`
//! (what a statement may mention), `resolved` (the query of a statement) and `laws`.
#![tactic(auto)]

mod known;
pub mod laws;
mod query_names;
mod query_types;
mod resolved;
mod statement_names;

pub use resolved::resolve;
