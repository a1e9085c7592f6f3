//! The sources of a FROM, by their names. It promises that a source is what its name or its query makes it,
//! and that sources joined from the left, with ON or USING, and the columns that they show together are
//! exactly those of the definition of name resolution, with its faults.
//!
//! Its modules, in order: `names` (copies of names), `given` (one source), `columns` (the columns that it
//! shows), `using` (the columns of both sides that USING names), `conditions` (ON and USING) and `joins`
//! (sources that are joined).
mod columns;
mod conditions;
mod given;
mod joins;
mod names;
mod using;

pub use given::{Given, Known, Queried, derived, named};
pub use joins::{Sources, first, join};
pub use names::copy_names;
