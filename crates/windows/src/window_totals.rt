//! Totals and counts over frames. It promises that from running totals, exact in 128 bits, the count and the
//! sum of the values in any three ranges are exactly those of the definition, for any value substituted for
//! an overflow, and that `Overflow` is returned only where one leaves 64 bits. Each value is added once.
//!
//! Its modules, in order: `running` (a total, and those of the first values) and `summed` (aggregates of
//! ranges).
mod running;
mod summed;

pub use running::{Total, Totals};
pub use summed::whole_number;
