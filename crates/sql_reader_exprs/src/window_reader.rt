//! The readers of lists of expressions, windows, and what else follows a call. Each passes a further
//! construct to what reads phrases within it (`Inner`); none calls itself. It promises that each reads
//! exactly what the grammar's reader does, and refuses exactly what that refuses, unless memory runs out.
//!
//! Its modules: `within` (what reads the phrases that a phrase holds), `lists`, `windows` and `trees` (which
//! makes their trees).
mod lists;
mod trees;
mod windows;
mod within;

pub use lists::{list, present};
pub use trees::boxed;
pub use windows::{behind, order, window};
pub use within::Inner;
