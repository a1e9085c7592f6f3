//! The kinds of trees and of their pages, and how deep a tree may be.

/// What a tree holds: the rows of a table by their rowids, or the entries of an index.
/// (Database File Format, section 1.6 "B-tree Pages")
#[derive(Clone, Copy, Debug, PartialEq, Eq)]
pub enum TreeKind {
    Table,
    Index,
}

/// Whether a page has children.
#[derive(Clone, Copy, Debug, PartialEq, Eq)]
pub enum Level {
    Leaf,
    Interior,
}

/// The most levels of pages that a tree may have. SQLite's cursors hold as many pages.
pub const MOST_LEVELS: u32 = 20;
