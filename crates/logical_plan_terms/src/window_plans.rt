//! Windows over any plan of the rows that they take, with all values, by which ties in ORDER BY are decided.
//! It promises a plan of just the rows that result columns are computed on, in some order, on which
//! expressions have the values of their terms, and that the SELECT can reach what these reach.
//!
//! Its modules, in order: `functions` (what is called), `calls` (over which window), `over` (the plan) and
//! `laws`.
mod calls;
mod functions;
pub mod laws;
mod over;

pub use over::windowed_over;
