//! The rows of a SELECT or of a compound: its result columns on each row that its plan gives, each once for
//! DISTINCT, put in order by ORDER BY, and of these as many as LIMIT and OFFSET leave. It promises that the
//! rows are a list that the query permits, for any value substituted for an overflow; that `Overflow` is
//! returned only where the plan, a result column or an expression of ORDER BY reaches one; and that no more
//! pages are asked for than the plan's work, and where rows are given one by one, in no order, none after the
//! last row that LIMIT leaves.
//!
//! The modules, in the order in which data passes them: `columns` (result columns on a row), `limits` (LIMIT
//! and OFFSET), `stream` (the rows of a SELECT in no order), `laws`, `distinct_results` (those of a SELECT
//! DISTINCT in no order), `compound_results` (those of SELECTs that UNION, UNION ALL, INTERSECT and EXCEPT
//! combine) and `sorted_results` (those of an answer that are gathered, as with ORDER BY).
#![tactic(auto)]

mod columns;
mod compound_results;
mod distinct_results;
pub mod laws;
mod limits;
mod sorted_results;
mod stream;

pub use columns::project;
pub use compound_results::{ChainedResults, are_all};
pub use distinct_results::DistinctResults;
pub use limits::LimitOffset;
pub use sorted_results::gathered_rows;
pub use stream::Results;
