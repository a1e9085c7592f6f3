//! The first of the values at a set of places, for the least and the greatest over frames. It promises that
//! the first of two sets, of each of which the first is known, is found by one comparison, whether they
//! overlap or not; NULLs are passed over.
//!
//! Its one module is `best`.
mod best;

pub use best::{Side, better, own_place};
