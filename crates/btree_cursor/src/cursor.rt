//! The cursor through a tree: it gives the cells of a sound tree from left to right for no more pages than
//! the tree has. Over any image it returns, decreases a measure, and blames only broken pages. In a tree in
//! order a search is at the first row or entry that doesn't come before what is sought. One cell is found by
//! its whole key without a cursor, for the pages of one way down.
//!
//! Its modules, in order: `search` (where on a page a search goes down), `cursor` (the way down, and from one
//! cell to the next), `found` and `find` (one cell by its whole key) and `laws`.
mod cursor;
mod find;
mod found;
pub mod laws;
mod search;

pub use cursor::{Cursor, depth};
pub use find::{find_entry, find_row};
pub use found::Found;
