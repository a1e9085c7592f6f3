//! The rows of one SELECT DISTINCT in no order, each once, as they come, a list that the query permits, for
//! any value substituted for an overflow. No page is asked for after the last row that LIMIT leaves.
//!
//! Its modules, in order: `first_rows` (rows that were met, each once) and `stream` (the rows).
mod first_rows;
mod stream;

pub use stream::DistinctResults;
