//! Runs of bytes at the front of a text, of which its tokens are made. It promises how long the longest run
//! of a kind is, and where a quoted text closes in which the quote may be written twice.
//!
//! Its modules, in order: `runs` (how long one is) and `cuts` (a text cut at an ASCII byte).
mod cuts;
mod runs;

pub use cuts::{after_first, split_before};
pub use runs::{Class, begins_word, quoted_len, run_len};
