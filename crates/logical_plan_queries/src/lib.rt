//! The plan of a query. It promises that a plan is made of each query that is served, one SELECT or a
//! compound, each of joined tables or of none, as each typed one of that form is; that each answer of the
//! plan is a list that the query permits, for any value substituted for an overflow; that what the plan
//! reaches the query can reach; and that its sources and columns are some of those that have the columns of
//! the catalog.
//!
//! The modules, in the order in which data passes them: `select_plans` (what a SELECT computes),
//! `compound_plans` (the plans of SELECTs that operators combine), `planned` (plans), `orders` (ORDER BY as
//! places in rows), `answers` (SELECTs with ORDER BY, LIMIT and OFFSET), `scans` (columns alone), `queries`
//! (the plan of a query), `laws`, and `plan_sources` (whether a plan reads sources that exist).
#![tactic(auto)]

mod answers;
mod compound_plans;
pub mod laws;
mod orders;
mod plan_sources;
mod planned;
mod queries;
mod scans;
pub mod select_plans;

pub use plan_sources::is_over;
pub use planned::Planned;
pub use queries::plan;
