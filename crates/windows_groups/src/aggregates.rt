//! The aggregates of groups. It promises that what is kept of a group's rows, one after the other, gives
//! exactly the value of each aggregate over all of them, for any value substituted for an overflow;
//! `Overflow` is returned only where the exact total or count leaves 64 bits, or an argument reaches one.
//!
//! Its modules, in order: `accumulator` (one aggregate of the values so far) and `members` (the aggregates of a
//! group).
mod accumulator;
mod members;

pub use accumulator::Accumulator;
pub use members::{add_row, first_states, push_values};
