//! The reader of calls, and of what else begins with a name. It promises that it reads exactly what the
//! grammar's reader does, and refuses exactly what that refuses, unless memory runs out.
//!
//! Its modules: `calls` and `trees` (which makes their trees).
mod calls;
mod trees;

pub use calls::named;
