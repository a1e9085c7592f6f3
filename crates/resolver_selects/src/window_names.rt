//! The windows of a SELECT. It promises that a window is made exactly where the definition of name resolution
//! has one, and that one, with its default frame, and that a fault is given exactly where the definition has
//! it.
//!
//! Its modules, in order: `frames` and `windows` (what is written, and what WINDOW names).
mod frames;
mod windows;

pub use frames::natural;
pub use windows::{Defined, defined_as, window};
