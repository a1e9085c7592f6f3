//! The reader of CASE. It promises that it reads exactly what the grammar's reader does, and refuses exactly
//! what that refuses, unless memory runs out.
//!
//! Its modules: `choices` and `trees` (which makes their trees).
mod choices;
mod trees;

pub use choices::choice;
