//! A cursor at the first row or entry that doesn't come before a range.
ghost use Rattle.std.specs.Prelude.{◌≡◌, ◌*◌, ◌+◌, ◌<◌, ◌≤◌, ℕ, ℤ, suc, false, IfErr, IfOk, IfSome, List, MatchResult, Option};
ghost use Rattle.values.specs.Datum.{Datum};
ghost use Rattle.pager.specs.Calls.{IsReadFault, ReadsPages, ReadsTreePages};
ghost use Rattle.btree.specs.image.Pages.{WhereSteady};
ghost use Rattle.btree.specs.image.Shape.{most_levels};
ghost use Rattle.btree.specs.image.Tree.{Place};
ghost use Rattle.btree_cursor.specs.cursor.Left.{steps_left, worth};
ghost use Rattle.btree_cursor.specs.cursor.Search.{HasRowWith, IsSearchable, IsSearchableIndex, IsUnchainedIndex};
ghost use Rattle.btree_cursor.specs.key_ranges.Ranges.{has_null};
ghost use Rattle.btree_cursor.specs.key_ranges.View.{range};
ghost use Rattle.schema_tables.specs.TableData.{RowKeyData, TableData};
ghost use Rattle.records_searches.specs.Coming.{AreOpened, IsSearchFault};
ghost use Rattle.records_searches.specs.Entries.{AreWide, EntryData, HoldsRowEntries, entries_in, of_table};
ghost use Rattle.records_searches.specs.Sought.{IsEntryLanding, IsRowLanding};
ghost use Rattle.records_searches.specs.Work.{IsForOneKey};

use crate::row_cuts::RowCut;
use btree_cursor::key_ranges::KeyRange;
use btree_cursor::{Cursor, IndexKey};
use pager::{Pager, Source};
use std::alloc::Global;
use values::Fault;

/// A cursor's fault, as a search answers it: a tree that was sound and is not has changed.
pub(crate) fn search_fault(fault: Fault) -> Fault
    ensures only { IsSearchFault result }
    ensures read { IsReadFault fault → result ≡ fault }
    ensures failed { result ≡ Fault.ReadFailed → fault ≡ Fault.ReadFailed }
{
    match fault {
        Fault::ReadFailed => Fault::ReadFailed,
        Fault::NoMemory => Fault::NoMemory,
        _ => Fault::Changed,
    }
}

/// A cursor at the first row of a table that doesn't come before a position; none where all of them do. Its faults are those
/// of `Cursor::seek_row`.
fn row_after<S: Source>(
    alloc: Global,
    pager: &mut Pager<S>,
    root: u32,
    cut: RowCut,
) -> Result<Option<Cursor>, Fault>
    ensures lands { WhereSteady pager.old.state (λ pages. (levels : ℕ) → IsSearchable pages levels root
        → MatchResult result (λ cursor. IsRowLanding cut pages levels root cursor pager.new.state.asked
        × (pager.new.state.asked ≤ pager.old.state.asked + (2 * levels + 1))) IsReadFault) }
    ensures direct { WhereSteady pager.old.state (λ pages. (levels : ℕ) (rowid : ℤ) → IsSearchable pages levels root → cut ≡ RowCut.At rowid false
        → HasRowWith pages levels root rowid → IfOk result (λ cursor. pager.new.state.asked ≤ pager.old.state.asked + (levels + 1))) }
    ensures few { IfOk result (λ cursor. IfSome cursor (λ cursor. steps_left cursor < worth (suc most_levels))) }
    ensures reads { ReadsTreePages result pager.old.state pager.new.state }
{
    match cut {
        RowCut::At(rowid, behind) => {
            let cursor = Cursor::seek_row(alloc, pager, root, rowid, behind)?;
            Ok(Some(cursor))
        }
        RowCut::Last => Ok(None),
    }
}

/// A cursor at the first row of a table that doesn't come before a range of rowids; none where all of them do.
pub(crate) fn row_in_range<S: Source>(
    alloc: Global,
    pager: &mut Pager<S>,
    root: u32,
    bounds: &KeyRange<'_>,
) -> Result<Option<Cursor>, Fault>
    ensures rows { WhereSteady pager.old.state (λ pages. (table : TableData) (at : Option ℕ) (levels : ℕ) (entries : List EntryData)
        → table.root ≡ root → table.key ≡ RowKeyData.Rowid at → has_null (range bounds.now) ≡ false → HoldsRowEntries pages table levels entries
        → AreWide (range bounds.now) entries
        → MatchResult result (λ cursor. AreOpened (of_table table) pages levels (range bounds.now) cursor (entries_in (range bounds.now) entries)
        × (pager.new.state.asked ≤ pager.old.state.asked + (2 * levels + 1))) IsReadFault) }
    ensures direct { WhereSteady pager.old.state (λ pages. (table : TableData) (levels : ℕ) (entries : List EntryData)
        → table.root ≡ root → HoldsRowEntries pages table levels entries → AreWide (range bounds.now) entries → IsForOneKey (range bounds.now) entries
        → IfOk result (λ cursor. pager.new.state.asked ≤ pager.old.state.asked + (levels + 1))) }
    ensures few { IfOk result (λ cursor. IfSome cursor (λ cursor. steps_left cursor < worth (suc most_levels))) }
    ensures only { IfErr result IsSearchFault }
    ensures reads { ReadsTreePages result pager.old.state pager.new.state }
{
    let cut = RowCut::new(bounds.equal, bounds.start(&[]));
    match row_after(alloc, pager, root, cut) {
        Ok(cursor) => Ok(cursor),
        Err(fault) => Err(search_fault(fault)),
    }
}

/// A cursor at the first entry of a tree, whose columns descend or don't, that doesn't come before a range.
pub(crate) fn entry_in_range<S: Source>(
    alloc: Global,
    pager: &mut Pager<S>,
    root: u32,
    descends: &[bool],
    bounds: &KeyRange<'_>,
) -> Result<Cursor, Fault>
    ensures lands { WhereSteady pager.old.state (λ pages. (levels : ℕ) (values : Place → List Datum)
        → IsSearchableIndex pages descends.now values levels root
        → MatchResult result (λ cursor. IsEntryLanding pages descends.now values levels root (range bounds.now) cursor pager.new.state.asked
        × (pager.new.state.asked ≤ pager.old.state.asked + (levels + 1))) IsReadFault) }
    ensures few { IfOk result (λ cursor. steps_left cursor < worth (suc most_levels)) }
    ensures only { IfErr result IsSearchFault }
    ensures unchained { WhereSteady pager.old.state (λ pages. IsUnchainedIndex pages root
        → pager.new.state.chained ≡ pager.old.state.chained) }
    ensures reads { ReadsPages result pager.old.state pager.new.state }
{
    let key = IndexKey {
        descends,
        equal: bounds.equal,
        end: bounds.start(descends),
    };
    match Cursor::seek_entry(alloc, pager, root, &key) {
        Ok(cursor) => Ok(cursor),
        Err(fault) => Err(search_fault(fault)),
    }
}
