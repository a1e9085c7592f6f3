//! The types of what one SELECT computes. It promises that the types of terms, over columns and answers of
//! inner queries of given types, and of conditions, aggregates and calls with OVER are exactly those of the
//! definition of types, with its faults, unless memory runs out.
//!
//! Its modules, in order: `terms` (terms that have to be of some type), `frames` (the frames that there can
//! be), `functions` (aggregates, and functions over windows) and `windows` (calls with OVER).
mod frames;
mod functions;
mod terms;
mod windows;

pub use functions::aggregate_types;
pub use terms::{condition_type, term_type, term_types, typed};
pub use windows::call_types;
