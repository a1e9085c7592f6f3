//! The rows of the queries in FROM, in WITH and inside expressions, computed innermost first and once each.
//! It promises that the rows of each are the bag of the definition, so that what the plan over these rows
//! answers is permitted; and that a fault has its cause, an overflow where the query can reach one.
//!
//! Its modules, in order: `inner` (what is computed of the queries in a query), `flat` (a query without
//! subqueries), `planning` (its plan), `rows` (the rows of a plan), `computing` (the rows of each query),
//! `queries` (the plan of a whole query) and `laws`.
mod computing;
mod flat;
mod inner;
pub mod laws;
mod planning;
mod queries;
mod rows;

pub use inner::InnerRows;
pub use queries::{KeptPlan, kept_plan};
pub use rows::planned_rows;
