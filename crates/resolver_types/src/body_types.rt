//! The types of queries without their ORDER BY, with the queries in their FROM and expressions at any depth.
//! It promises that the types of the result columns, over tables whose columns have given types, are exactly
//! those of the definition of types, with its faults, unless memory runs out.
//!
//! Its modules, in order: `columns` (the types of columns, one after another), `selects` (one SELECT, over
//! the rows of its FROM), `rows` (the types of a row), `computed` (the rows that result columns and ORDER BY
//! are computed on) and `bodies` (the cycle).
mod bodies;
mod columns;
mod computed;
mod rows;
mod selects;

pub use bodies::{body_types, computed_row};
pub use computed::column_types;
pub use rows::Row;
