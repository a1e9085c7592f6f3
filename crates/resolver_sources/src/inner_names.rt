//! The queries inside the expressions of a SELECT, by their names. It promises that they are exactly those of
//! the definition of name resolution, in their order, each over its own sources alone, with its faults, where
//! what resolves queries is so; and that each is identified by the position of the first that is the same.
//!
//! Its modules, in order: `written` (a query, and what is asked of it), `resolved` (it by its names), `all`
//! (those of a SELECT) and `answers` (the position of each).
mod all;
mod answers;
mod resolved;
mod written;

pub use all::{asked_queries, inner_queries, split};
pub use answers::Inners;
pub use resolved::Inner;
pub use written::Asked;
