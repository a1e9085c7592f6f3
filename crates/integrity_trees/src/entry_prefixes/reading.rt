//! All entries of an index.
ghost use Rattle.std.specs.Prelude.{◌≡◌, ◌≤◌, Bool, IfErr, List, MatchResult, length};
ghost use Rattle.values.specs.Row.{Row};
ghost use Rattle.pager.specs.Calls.{IsReadFault, ReadsChainPages, ReadsPages};
ghost use Rattle.btree.specs.image.Pages.{IsNumber, WhereSteady};
ghost use Rattle.btree.specs.Views.{cell_data};
ghost use Rattle.btree_cursor.specs.index_entries.Entries.{HasRecord, IsCompareFault};
ghost use Rattle.integrity_trees.specs.declared.tree_walk.counts.TreeCounts.{TreeCounts};
ghost use Rattle.integrity_trees.specs.declared.index_walk.tree.EntryWidths.{EntryWidths};
ghost use Rattle.integrity_trees.specs.index_walk.Checked.{IsCheckedIndex};
ghost use Rattle.btree_cursor.specs.cursor.Search.{IsIndexFault};
ghost use Rattle.integrity_trees.specs.entry_prefixes.Counting.{CountsEntry};
ghost use Rattle.integrity_trees.specs.entry_prefixes.Prefixes.{HasPrefixes};

use crate::entry_prefixes::counting::Prefixes;
use crate::entry_prefixes::last::LastRecord;
use btree::{Cell, TreeKind, payload};
use btree_cursor::Cursor;
use pager::{Pager, Source};
use std::alloc::Global;
use values::Fault;

/// Counts an entry of page `n`, whose record is the last one then. Its values are looked at in place.
fn count_entry<S: Source>(
    alloc: Global,
    pager: &mut Pager<S>,
    cell: &Cell<'_>,
    n: u32,
    prefixes: &mut Prefixes,
    last: &mut LastRecord,
) -> Result<(), Fault>
    ensures long { length prefixes.new.distinct.items ≡ length prefixes.old.distinct.items }
    ensures counted { WhereSteady pager.old.state (λ pages. (row : Row) → HasRecord pages (cell_data cell.now) row
        → MatchResult result (λ _. CountsEntry prefixes.old prefixes.new last.old last.new row) IsReadFault) }
    ensures only { IfErr result (IsCompareFault n) }
    ensures reads { ReadsChainPages result pager.old.state pager.new.state }
{
    let Some(bytes) = payload(alloc, pager, cell)? else {
        return Err(Fault::BadChain(n));
    };
    let held = bytes.as_slice();
    prefixes.add(last, held);
    last.put(held)?;
    Ok(())
}

/// What the entries of the index that has this root show of their first columns, so many, where its tree was checked, by keys of
/// as many values at least. Each entry is held against the one before it alone: entries that agree in their first values stand
/// together. (CREATE INDEX, "Unique Indexes")
///
/// # Errors
///
/// `ReadFailed` and `NoMemory`; others only where the source has changed since the check.
pub fn read_prefixes<S: Source>(
    alloc: Global,
    pager: &mut Pager<S>,
    root: u32,
    width: usize,
) -> Result<Prefixes, Fault>
    ensures prefixes { WhereSteady pager.old.state (λ pages. (widths : EntryWidths) (descends : List Bool) (counts : TreeCounts)
        → width ≤ widths.key → IsNumber pages root → IsCheckedIndex pages widths descends root counts
        → MatchResult result (HasPrefixes pages root width) IsReadFault) }
    ensures only { IfErr result (IsIndexFault root) }
    ensures reads { ReadsPages result pager.old.state pager.new.state }
{
    let mut prefixes = Prefixes::none(alloc, width)?;
    let mut last = LastRecord::new(alloc);
    let mut cursor = Cursor::first(alloc, pager, TreeKind::Index, root)?;
    loop {
        // An entry that was checked is there again, unless the source has changed.
        let Ok(entry) = cursor.entry() else {
            return Err(Fault::BadPage(root));
        };
        let Some(cell) = entry else {
            return Ok(prefixes);
        };
        count_entry(alloc, pager, &cell, root, &mut prefixes, &mut last)?;
        cursor.next(pager)?;
    }
}
