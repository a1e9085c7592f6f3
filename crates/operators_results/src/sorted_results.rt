//! The rows of an answer that are all gathered before the first is given, a list that the query permits, for
//! any value substituted for an overflow. With ORDER BY and a LIMIT, rows of SELECTs that UNION ALL alone
//! combines, and those of one SELECT DISTINCT, are dropped as they come after those that it and OFFSET look at.
//!
//! Its modules, in order: `pushed` (the rows of a stream, of which the first in order are kept), `in_order`
//! (the rows in order) and `gathered` (what is shown of them).
mod gathered;
mod in_order;
mod pushed;

pub use gathered::gathered_rows;
