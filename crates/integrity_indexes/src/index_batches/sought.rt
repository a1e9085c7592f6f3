//! A batch, and which rowids it is for.
ghost use Rattle.std.specs.Prelude.{◌↔◌, IsTrue};
ghost use Rattle.values.specs.Bounds.{IsAbove, IsAtMost};
ghost use Rattle.integrity_trees.specs.wanted_entries.Bags.{IsWithin};

use crate::entry_batches::Batch;

/// A batch of entries that rows of a table want, and which rowids it is for: those of all rows that want one of these.
#[derive(Drop)]
pub struct SoughtBatch<'b> {
    /// How many columns the index has.
    pub columns: usize,
    /// The entries.
    pub batch: &'b Batch,
    /// The rowids are above this one, if there is one.
    pub above: Option<i64>,
    /// They are at most this one, if there is one.
    pub most: Option<i64>,
}

#[inline]
fn is_above(low: Option<i64>, rowid: i64) -> bool
    ensures { IsTrue result ↔ IsAbove low rowid }
{
    match low {
        Some(low) => low < rowid,
        None => true,
    }
}

#[inline]
fn is_at_most(high: Option<i64>, rowid: i64) -> bool
    ensures { IsTrue result ↔ IsAtMost high rowid }
{
    match high {
        Some(high) => rowid <= high,
        None => true,
    }
}

impl<'b> SoughtBatch<'b> {
    /// Whether the batch is for a rowid.
    #[inline]
    pub(crate) fn is_for(&self, rowid: i64) -> bool
        ensures { IsTrue result ↔ IsWithin self.now.above self.now.most rowid }
    {
        is_above(self.above, rowid) && is_at_most(self.most, rowid)
    }
}
