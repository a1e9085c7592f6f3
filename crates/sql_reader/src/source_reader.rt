//! The reader of what follows FROM: sources, and how they are joined. It promises that it reads exactly what
//! the grammar's reader does, and refuses exactly what that refuses, unless memory runs out.
//!
//! Its modules: `conditions` (ON and USING), `source_lists` (a source, and all of them) and `trees` (which
//! makes their trees).
mod conditions;
mod source_lists;
mod trees;

pub use source_lists::from;
