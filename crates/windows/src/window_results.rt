//! The values of one call over a window along one partition's sequence. It promises that what is computed
//! once of the sequence gives at each place exactly the value of the definition, for any value substituted
//! for an overflow, and adds each value of an argument to totals once at most, however many frames it is in.
//!
//! Its modules, in order: `framed` (functions of the values of a frame), `computed` (what is computed once of
//! a sequence) and `results` (the value at a place, and those of all places, put where their rows are).
mod computed;
mod framed;
mod results;

pub use computed::{Computed, Shifted, compute};
pub use framed::Framed;
pub use results::put_values;
