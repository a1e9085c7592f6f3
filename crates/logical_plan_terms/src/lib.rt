//! Terms over the columns that are read, and plans of FROM, WHERE, groups and windows made of them. It
//! promises that the columns that are read are those that terms name, each once, in their order; that an
//! expression over them is the same on each row as its term is, also in whether it has a value, and is absent
//! only where a column isn't read or an inner query is asked; that a condition is split into its conjuncts;
//! and that a plan has, in some order, just the rows of the SELECT's FROM and WHERE, of its groups, or those
//! with the values of its windows, and reaches nothing that the SELECT can't reach.
//!
//! The modules, in the order in which data passes them: `names` (the columns that are read), `over` (a term over
//! them, where it may be), `conditions` (a condition split at AND), `group_plans` (GROUP BY and HAVING over a
//! plan of FROM and WHERE), `window_plans` (windows over a plan of the rows that they take) and `table_plans`
//! (the plan of FROM and WHERE).
#![tactic(auto)]

mod conditions;
pub mod group_plans;
mod names;
mod over;
pub mod table_plans;
pub mod window_plans;

pub use conditions::conjuncts_over;
pub use group_plans::{columns_of_groups, grouped_over, push_group_columns};
pub use names::{push_columns_of_all, read_columns};
pub use over::{expr_over, exprs_over};
pub use table_plans::{Input, JoinedTable, TablePlan, input_of, plan_of};
pub use window_plans::windowed_over;
