//! The plan of FROM and WHERE of joined tables, or of none: it has just the rows that WHERE keeps, and
//! reaches only what the SELECT can reach. Conditions are tested as soon as their columns are read, but ON of
//! a LEFT JOIN at its table; with a RIGHT or FULL JOIN each ON at its table, and WHERE last.
//!
//! Its modules, in order: `inputs` (the tables that a SELECT reads), `columns` (those of tables side by
//! side), `early` (conditions that need the first of them alone, and where each is tested), `written` (tables
//! that are joined as they are written), `tables` (the plan) and `laws`.
mod columns;
mod early;
mod inputs;
pub mod laws;
mod tables;
mod written;

pub use inputs::{Input, JoinedTable, input_of, is_always};
pub use tables::plan_of;
