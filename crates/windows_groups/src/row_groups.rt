//! Rows gathered by the values of GROUP BY. It promises that what is kept, one row after the other, is just
//! the groups of all of them: each key once, in the order in which keys first came, NULLs as one value, and
//! without GROUP BY one group; and that their rows, with the aggregates, are the bag that GROUP BY gives.
//!
//! Its modules, in order: `terms` (what rows are gathered by, and what is computed of each group), `gathered`
//! (the groups) and `laws`.
mod gathered;
pub mod laws;
mod terms;

pub use gathered::Groups;
pub use terms::GroupTerms;
