//! The calls over windows of a SELECT. It promises that a call with OVER, and what may be said of an
//! expression over the rows of windows, are exactly those of the definition of name resolution, with its
//! faults; and that each call is found once, where it is first.
//!
//! Its modules, in order: `functions` (what is computed over a window), `calls` (a call with OVER),
//! `mentions` (all of a SELECT) and `over_windows` (the place of what is computed over windows).
mod calls;
mod functions;
mod mentions;
mod over_windows;

pub use mentions::{call_place, first_calls};
pub use over_windows::Windowed;
