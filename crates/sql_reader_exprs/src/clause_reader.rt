//! The readers of the phrases of a statement that have no expression in them. It promises that each reads
//! exactly what the grammar's reader does, and refuses exactly what that refuses, unless memory runs out.
//!
//! Its modules: `reading` (what each of them returns), `name_lists`, `frames` (directions and frames) and
//! `limits`.
mod frames;
mod limits;
mod name_lists;
mod reading;

pub use frames::{direction, frame};
pub use limits::limit;
pub use name_lists::{a_name, alias, columns, names};
pub use reading::Read;
