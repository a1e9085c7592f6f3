//! Rows and plans as the text that a user reads. It promises the exact bytes of each row and of each line of a plan,
//! that a write that fails has written a beginning of them, and that no two lists of rows have the same text.
//!
//! The modules, in the order in which data passes them: `shown` (a value written as a literal), `lines` (rows
//! as lines), `plans` (the steps of a plan as lines), and `laws`.
#![tactic(auto)]

pub mod laws;
mod lines;
mod plans;
mod shown;

pub use lines::{row_text, rows_text, values_text};
pub use plans::{PlanLine, plan_text};
