//! Whole statements, by their names. It promises that a statement, with the items of WITH, its ORDER BY,
//! LIMIT and OFFSET, is exactly that of the definition of name resolution, and that a fault is given exactly
//! where the definition has it, unless memory runs out.
//!
//! Its modules, in order: `counting` (how many sources a query has), `names` (names that are distinct),
//! `items` (the items of WITH), `limits` (LIMIT and OFFSET) and `statements`.
mod counting;
mod items;
mod limits;
mod names;
mod statements;

pub use statements::named_statement;
