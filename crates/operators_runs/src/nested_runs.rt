//! Queries, with a plan or with queries in them, that are run whole, or stepped a row at a time. It promises
//! that what was written is the text of a list of rows that the query permits, or at a fault of a beginning of
//! one; that the fault has its cause; and that each query asks once for no more pages than its joins may.
//!
//! Its modules, in order: `written` (what a query answers), `gathered` (the rows of one with queries in it, all
//! of them) and `steps` (one row after another).
mod gathered;
mod steps;
mod written;

pub use steps::QueryRun;
pub use written::write_query;
