//! The readers of a SELECT and of a query. It promises that each reads exactly what the grammar's reader
//! does, and refuses exactly what that refuses, unless memory runs out.
//!
//! Its modules: `within` (what reads the SELECTs that a query holds), `result_columns`, `clauses` (what
//! follows the sources), `cores` (a SELECT), `queries` and `trees` (which makes their trees).
mod clauses;
mod cores;
mod queries;
mod result_columns;
mod trees;
mod within;

pub use cores::select;
pub use queries::query_by;
pub use within::InnerQueries;
