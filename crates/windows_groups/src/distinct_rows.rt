//! Different rows, and the first of them in order. It promises that of many rows those that are kept as they
//! come are the first of each, or that they begin a permutation of these that ascends by ORDER BY, as far as
//! LIMIT and OFFSET look.
//!
//! Its modules, in order: `distinct_in_order` (the first different rows in order, kept as they come) and
//! `sets` (the rows of a set).
mod distinct_in_order;
mod sets;

pub use distinct_in_order::DistinctInOrder;
pub use sets::rows_of;
