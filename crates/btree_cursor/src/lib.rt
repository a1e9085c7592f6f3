//! Ranges of the keys of a tree, and cursors through a tree to the rows or entries in them. It promises that
//! the entries between the two ends of a range are exactly those that its conditions let through; that where
//! the entries of a page are in order, the count of those that come before what is sought is exact; that a
//! cursor over a sound tree gives its cells from left to right and asks for no more pages than the tree has,
//! and a search is at the first row or entry that doesn't come before what is sought; and that over any image
//! a call returns, decreases a measure, and blames a page only where it isn't what it must be.
//!
//! The modules, in the order in which data passes them: `key_ranges` (ranges of the keys of a tree, and the
//! two places of the tree between which their entries are), `index_entries` (searches in a page of an index)
//! and `cursor` (the cursor through a tree).
#![tactic(auto)]

pub mod cursor;
mod index_entries;
pub mod key_ranges;

pub use cursor::{Cursor, Found, find_entry, find_row};
pub use index_entries::{IndexKey, record_fault};
pub use key_ranges::{End, descends_at};
