//! The rows of SELECTs that UNION, UNION ALL, INTERSECT and EXCEPT combine. Where UNION ALL alone combines
//! SELECTs without DISTINCT they are given one by one.
//!
//! Its modules, in order: `sets` (rows, each once, and marks of those that were met), `gathered` (the rows of
//! a stream), `arms` (those of each SELECT, combined) and `chained` (rows that are given one by one).
mod arms;
mod chained;
mod gathered;
mod sets;

pub(crate) use arms::arms_rows;
pub use chained::{ChainedResults, are_all};
pub(crate) use chained::{ArmsInTurn, opened};
