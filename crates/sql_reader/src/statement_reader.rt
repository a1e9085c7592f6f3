//! The reader of a whole statement, over what reads the queries and expressions in it (`Inner`). It promises
//! that it reads exactly what the grammar's reader does, and refuses exactly what that refuses, unless memory
//! runs out.
//!
//! Its modules: `statements` (a statement) and `items` (the items of WITH).
mod items;
mod statements;

pub use statements::statement;
