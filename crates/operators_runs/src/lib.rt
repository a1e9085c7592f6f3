//! Plans that are run whole or a row at a time, with the queries in a query computed first. It promises that
//! what was written at Ok is the text of one list of rows, which the plan answers for any value substituted
//! for an overflow, and at a fault that of a beginning of such a list; that rows given one by one are, at any
//! time, a beginning of such a list; that a fault over sources that have rows has its cause, an overflow
//! where the plan reaches one; that no more pages are asked for than the plan's work, with each query in a
//! query computed once, and none of overflow chains where no cell has one; and that over any source and sink
//! a call returns, and reports a failed read or write.
//!
//! The modules, in the order in which data passes them: `execution` (plans that are run and stopped at each
//! row), `inner_rows` (the rows of the queries in a query, computed innermost first), `columns` (columns of a
//! table's rows, written), `kept` (those of materialized rows), `written` (the rows of any other plan, written
//! as its execution gives them), `planned` (what a plan answers), and `nested_runs` (queries, with a plan or with
//! queries in them, that are run whole, or stepped a row at a time).
#![tactic(auto)]

mod columns;
mod execution;
pub mod inner_rows;
mod kept;
mod nested_runs;
mod planned;
mod written;

pub use execution::Execution;
pub use nested_runs::{QueryRun, write_query};
