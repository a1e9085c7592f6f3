//! One SELECT with its FROM, by its names. It promises that a SELECT with its FROM, where what resolves the
//! queries in it does, is exactly that of the definition of name resolution, and that a fault is given
//! exactly where the definition has it, unless memory runs out.
//!
//! Its modules, in order: `windows` (what has to be typed beside a SELECT) and `singles` (one SELECT with its
//! FROM, over what resolves the queries in it).
mod singles;
mod windows;

pub use singles::{NamedSingle, single};
