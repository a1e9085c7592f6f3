//! What walks over trees of either kind share. It promises that a walk that marks each page before it is
//! read, then each chain of the page's cells and each of its children, has marked all that the tree uses,
//! once, and that a page that is already marked then has two owners.
//!
//! Its modules, in order: `children` (the children of a page), `counts` (what a tree has) and `laws`.
mod children;
mod counts;
pub mod laws;

pub use children::{child_within, is_uneven};
pub use counts::{TreeCounts, counts_of_page, join};
