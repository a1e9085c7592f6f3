//! The types of terms, and of the bodies of queries. It promises that the types of terms over columns and
//! answers of given types, of conditions, aggregates and calls with OVER, and of a query's result columns
//! over tables whose columns have given types, with its subqueries at any depth, are exactly those of the
//! definition of types; and that a fault is given exactly where the definition has it, unless memory runs
//! out.
//!
//! The modules, in the order in which data passes them: `term_types` (the types of what one SELECT computes)
//! and `body_types` (the types of queries without their ORDER BY).
#![tactic(auto)]

pub mod body_types;
mod term_types;

pub use body_types::{Row, column_types, computed_row};
pub use term_types::{term_type, typed};
