//! Sixteen statements over one engine, stepped in any order. It promises that each of them answers as if it
//! were alone: what a slot replies to its own steps, from the first on, is what its statement may answer over
//! the tables that the image denotes. Its rows begin a list that the query permits, for any value substituted
//! for an overflow, and at the end they are the whole of one; a fault ends the statement of its own slot, and
//! no other; no step changes what another slot may reply. This holds for every list of steps, whatever the
//! cache keeps, and whichever reads fail.
//!
//! The modules, in the order in which data passes them: `step` (steps and replies), `slot` (a slot and its
//! statement), `slots` (all of them over an engine), `session` (an engine with its slots) and `schedules`
//! (lists of steps, made on fresh slots).
#![tactic(auto)]

mod schedules;
mod session;
mod slot;
mod slots;
mod step;

pub use schedules::replay;
pub use session::Session;
pub use slot::Slot;
pub use step::{Reply, Step};
