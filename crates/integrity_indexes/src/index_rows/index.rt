//! An index of a table.

use expr::Expr;

/// An index of a table. Each of its entries has the values of its columns, and behind them the rowid, or of a table without
/// rowids the columns of the PRIMARY KEY that aren't indexed.
#[derive(Clone, Copy)]
pub struct TableIndex<'i> {
    /// The number of the page at its root.
    pub root: u32,
    /// The places of its columns in the table.
    pub places: &'i [usize],
    /// The places of the columns that its entries have behind these, where the table has no rowids.
    pub others: &'i [usize],
    /// Which of its columns descend; what stands behind them ascends.
    pub descends: &'i [bool],
    /// The condition on a row's columns, where it has only entries of rows of which this is true. (Partial Indexes)
    pub condition: Option<&'i Expr>,
}
