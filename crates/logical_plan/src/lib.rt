//! Plans of FROM, WHERE, groups and windows, and what a query answers over the rows of plans: which rows a
//! plan has, in which order, how many pages it may ask for, and which overflows it can reach. It promises
//! that the plan of one table has just the rows that a SELECT's FROM and WHERE have, and asks for no more
//! pages than the table's tree has, and for none where a condition that names no column isn't true; that the
//! plan of tables joined by joins of each kind has these rows; that what a plan reaches the SELECT can reach;
//! and that an answer over a plan of the rows on which a SELECT computes its result columns is one that the
//! query permits.
//!
//! The modules, in the order in which data passes them: `plan` (the trees of plans), `copies` (of what is
//! read of a table), `laws`, and `answers` (what a query answers: result columns over the rows of plans,
//! with DISTINCT, compound operators, ORDER BY, LIMIT and OFFSET).
#![tactic(auto)]

mod answers;
mod copies;
pub mod laws;
mod plan;

pub use answers::{Answer, Arm, Arms, Order};
pub use copies::copy_nested;
pub use plan::{Edge, Nested, OuterTable, Plan, Search};
