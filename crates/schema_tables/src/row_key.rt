//! How the rows of a table are found.

/// How the rows of a table are found in its tree.
#[derive(Debug, Drop)]
pub enum RowKey {
    /// By their rowids. One of the columns may be the rowid, the one at this place. (ROWIDs and the INTEGER PRIMARY KEY)
    Rowid(Option<usize>),
    /// By the columns of the PRIMARY KEY, at these places, in the key's order. (WITHOUT ROWID Tables)
    Primary(Vec<usize>),
}
