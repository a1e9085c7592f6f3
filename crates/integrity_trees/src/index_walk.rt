//! A walk over the tree of an index, or of a table without rowids, whose interior pages have entries too. It
//! promises that a tree that passes is sound, each entry is a record of as many values as it may have, after
//! the one before it, counts are exact, those of the first columns' different values too, all pages and
//! chains are marked, and a fault's condition is broken.
//!
//! Its modules, in order: `tree` (which tree is walked, and how many values its entries have), `page` (a page
//! as it was read), `last` (the entry that was met last, whether another comes after it, and what the entries
//! show), `entries` (an entry with its overflow pages), `walk` (the tree, from its root down) and `laws`.
mod entries;
mod last;
pub mod laws;
mod page;
mod tree;
mod walk;

pub use tree::{EntryWidths, IndexTree};
pub use walk::{check_counted, check_index};
