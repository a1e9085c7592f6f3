//! Plans that are run and stopped at each row. It promises that the rows given so far begin a list that the
//! plan answers, for any value substituted for an overflow, and are the whole of one once it gives no more;
//! that all calls together ask for no more pages than the plan's work, whatever else reads pages in between.
//!
//! Its modules, in order: `columns` (columns of a table's rows, as rows of a SELECT) and `rows` (a plan that is
//! run).
mod columns;
mod rows;

pub use rows::Execution;
