//! GROUP BY and HAVING over a plan of FROM and WHERE. Over any plan of the rows that WHERE keeps, in some
//! order, it promises a plan of just the rows of groups that HAVING keeps; that an expression over its rows
//! has the value of its term on a group's row; and that what plan and expressions reach the SELECT can reach.
//!
//! Its modules, in order: `named` (the columns that groups name), `over` (the plan) and `laws`.
pub mod laws;
mod named;
mod over;

pub use named::push_group_columns;
pub use over::{columns_of_groups, grouped_over};
