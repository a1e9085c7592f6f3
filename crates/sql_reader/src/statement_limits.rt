//! The limits that a statement's tree is tested for: how many result columns each SELECT has, how many
//! sources its FROM has, and how many sources are written in all. It promises that a statement passes exactly
//! where it is within them.
//!
//! Its modules: `limits` (a statement) and `spending` (a walk over the SELECTs of a tree).
mod limits;
mod spending;

pub use limits::{MAX_WRITTEN, check_limits};
pub use spending::MAX_SOURCES;
