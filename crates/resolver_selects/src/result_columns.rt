//! The result columns of a SELECT. It promises that their terms and names are exactly those of the definition
//! of name resolution, and that a fault is given exactly where the definition has it.
//!
//! Its modules, in order: `titles` (the name of one), `inputs` (a column of FROM, over groups) and `columns`
//! (all of a SELECT).
mod columns;
mod inputs;
mod titles;

pub use columns::result_columns;
