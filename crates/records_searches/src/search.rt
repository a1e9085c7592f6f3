//! The rows of a table, or the entries of an index, that meet a range, one by one.
ghost use Rattle.std.specs.Prelude.{◌≡◌, ◌*◌, ◌+◌, ◌≤◌, ◌<◌, ◌∷◌, ℕ, suc, false, true, IfErr, IfNone, IfOk, IfSome, List, MatchResult, None, Ok, option_map};
ghost use Rattle.values.specs.Datum.{Datum};
ghost use Rattle.values.specs.Row.{Row};
ghost use Rattle.pager.specs.Calls.{IsReadFault, ReadsChainPages, ReadsPages, ReadsTreePages};
ghost use Rattle.btree.specs.declared.image.kind.TreeKind.TheVariants.{Index};
ghost use Rattle.btree.specs.image.Pages.{WhereSteady};
ghost use Rattle.btree.specs.image.Shape.{most_levels};
ghost use Rattle.btree.specs.Views.{cell_data};
ghost use Rattle.btree_cursor.specs.cursor.Found.{AsksOneWay};
ghost use Rattle.btree_cursor.specs.index_entries.Entries.{HasRecord};
ghost use Rattle.btree_cursor.specs.cursor.Left.{steps_left, worth};
ghost use Rattle.btree_cursor.specs.cursor.Search.{IsUnchainedIndex};
ghost use Rattle.btree_cursor.specs.key_ranges.Ranges.{Range, has_null};
ghost use Rattle.btree_cursor.specs.key_ranges.View.{range as key_range};
ghost use Rattle.schema_tables.specs.TableData.{TableData};
ghost use Rattle.records_searches.specs.Coming.{AreOpened, AreToCome, GivesCell, GivesFound, HasLocalKeys, HasNoChains, IsSearchFault, LeadsToIf};
ghost use Rattle.records_searches.specs.Entries.{AreWide, EntryData, HoldsEntries, LeadsTo, SearchedData, entries_in, kind_by, of_index, of_table};
ghost use Rattle.records_searches.specs.Work.{GoesStraight, depth_of};

use crate::cells::{bytes_in_range, cell_at, row_is_in_range};
use crate::fetches::row_of_entry;
use crate::finders::RowIndex;
use crate::ranges::RangeValues;
use crate::seeks::{entry_in_range, row_in_range, search_fault};
use btree::Cell;
use btree_cursor::key_ranges::KeyRange;
use btree_cursor::{Cursor, Found};
use pager::{Pager, Source};
use schema_tables::{RowKey, Table};
use std::alloc::Global;
use values::{Fault, Value};

/// The bounds of a search; none where one of them is NULL, so that nothing meets them.
fn bounds_of(range: &RangeValues) -> Option<KeyRange<'_>>
    ensures found { IfSome result (λ bounds. (key_range bounds ≡ range.now) × (has_null range.now ≡ false)) }
    ensures none { IfNone result (has_null range.now ≡ true) }
{
    let bounds = range.key_range();
    if bounds.has_null() {
        return None;
    }
    Some(bounds)
}

/// A cursor at the first row of a table that meets a range of its rowids or of its PRIMARY KEY, or after which those that
/// do would stand; none where none can, since a bound is NULL or all rows come before the range. Its faults are `ReadFailed`,
/// `NoMemory`, and `Changed`, which no table gives that is stored as it was checked.
pub fn first_of_table<S: Source>(
    alloc: Global,
    pager: &mut Pager<S>,
    table: &Table,
    range: &RangeValues,
) -> Result<Option<Cursor>, Fault>
    ensures rows { WhereSteady pager.old.state (λ pages. (levels : ℕ) (entries : List EntryData) → HoldsEntries (of_table table.now) pages levels entries
        → AreWide range.now entries
        → MatchResult result (λ cursor. AreOpened (of_table table.now) pages levels range.now cursor (entries_in range.now entries)
        × (pager.new.state.asked ≤ pager.old.state.asked + (2 * levels + 1))) IsReadFault) }
    ensures direct { WhereSteady pager.old.state (λ pages. (levels : ℕ) (entries : List EntryData) → HoldsEntries (of_table table.now) pages levels entries
        → AreWide range.now entries → GoesStraight table.now.key range.now entries
        → IfOk result (λ cursor. pager.new.state.asked ≤ pager.old.state.asked + depth_of levels)) }
    ensures null { has_null range.now ≡ true → (result ≡ Ok None) × (pager.new.state ≡ pager.old.state) }
    ensures few { IfOk result (λ cursor. IfSome cursor (λ cursor. steps_left cursor < worth (suc most_levels))) }
    ensures only { IfErr result IsSearchFault }
    ensures unchained { WhereSteady pager.old.state (λ pages. HasLocalKeys pages table.now
        → pager.new.state.chained ≡ pager.old.state.chained) }
    ensures reads { ReadsPages result pager.old.state pager.new.state }
{
    let Some(bounds) = bounds_of(range) else {
        return Ok(None);
    };
    let root = table.root();
    match table.key() {
        RowKey::Rowid(_) => row_in_range(alloc, pager, root, &bounds),
        RowKey::Primary(_) => {
            let cursor = entry_in_range(alloc, pager, root, &[], &bounds)?;
            Ok(Some(cursor))
        }
    }
}

/// A cursor at the first entry of an index that meets a range, or after which those that do would stand; none where none can,
/// since a bound is NULL. Its faults are `ReadFailed`, `NoMemory`, and `Changed`, which no index gives that is stored as it
/// was checked.
pub fn first_of_index<S: Source>(
    alloc: Global,
    pager: &mut Pager<S>,
    index: &RowIndex,
    range: &RangeValues,
) -> Result<Option<Cursor>, Fault>
    ensures rows { WhereSteady pager.old.state (λ pages. (table : TableData) (levels : ℕ) (entries : List EntryData)
        → HoldsEntries (of_index table index.now) pages levels entries → AreWide range.now entries
        → MatchResult result (λ cursor. AreOpened (of_index table index.now) pages levels range.now cursor (entries_in range.now entries)
        × (pager.new.state.asked ≤ pager.old.state.asked + (levels + 1))) IsReadFault) }
    ensures null { has_null range.now ≡ true → (result ≡ Ok None) × (pager.new.state ≡ pager.old.state) }
    ensures few { IfOk result (λ cursor. IfSome cursor (λ cursor. steps_left cursor < worth (suc most_levels))) }
    ensures only { IfErr result IsSearchFault }
    ensures unchained { WhereSteady pager.old.state (λ pages. IsUnchainedIndex pages index.now.root
        → pager.new.state.chained ≡ pager.old.state.chained) }
    ensures reads { ReadsPages result pager.old.state pager.new.state }
{
    let Some(bounds) = bounds_of(range) else {
        return Ok(None);
    };
    let entry = entry_in_range(alloc, pager, index.root, index.descends.as_slice(), &bounds)?;
    Ok(Some(entry))
}

/// The cell of the row at the position of a search of a table, where it meets the range; none where it doesn't, or there is none.
/// Its faults are `ReadFailed`, `NoMemory`, and `Changed`, which no table gives that is stored as it was checked.
pub fn table_row<'c, S: Source>(
    alloc: Global,
    pager: &mut Pager<S>,
    cursor: &'c Cursor,
    table: &Table,
    range: &RangeValues,
) -> Result<Option<Cell<'c>>, Fault>
    ensures rows { WhereSteady pager.old.state (λ pages. (levels : ℕ) (entries : List EntryData)
        → AreToCome (of_table table.now) pages levels range.now cursor.now entries
        → MatchResult result (λ cell. GivesCell pages table.now entries (option_map cell_data cell)) IsReadFault) }
    ensures more { IfOk result (λ found. IfSome found (λ cell. 0 < steps_left cursor.now)) }
    ensures only { IfErr result IsSearchFault }
    ensures local { WhereSteady pager.old.state (λ pages. (levels : ℕ) (entries : List EntryData)
        → AreToCome (of_table table.now) pages levels range.now cursor.now entries → HasNoChains (of_table table.now) pages levels
        → pager.new.state ≡ pager.old.state) }
    ensures flat { WhereSteady pager.old.state (λ pages. (levels : ℕ) (entries : List EntryData)
        → AreToCome (of_table table.now) pages levels range.now cursor.now entries → HasNoChains (of_table table.now) pages levels
        → IfOk result (λ found. IfSome found (λ cell. cell.payload.overflow ≡ None))) }
    ensures reads { ReadsChainPages result pager.old.state pager.new.state }
{
    let Some(cell) = cell_at(cursor)? else {
        return Ok(None);
    };
    let met = row_is_in_range(alloc, pager, table, &cell, &range.key_range())?;
    if !met {
        return Ok(None);
    }
    Ok(Some(cell))
}

/// The row to which the entry of an index in a cell leads, where it meets the range.
fn entry_row<S: Source>(
    alloc: Global,
    pager: &mut Pager<S>,
    cell: &Cell<'_>,
    table: &Table,
    index: &RowIndex,
    range: &RangeValues,
    key: &mut Vec<Value>,
) -> Result<Option<Found>, Fault>
    ensures row { WhereSteady pager.old.state (λ pages. (values : List Datum) (row : Row) → HasRecord pages (cell_data cell.now) values
        → LeadsTo pages table.now index.now.finder values row
        → MatchResult result (λ found. LeadsToIf range.now pages table.now values row found) IsReadFault) }
    ensures only { IfErr result IsSearchFault }
    ensures asks { AsksOneWay pager.old.state pager.new.state (kind_by index.now.finder) table.now.root }
    ensures end { IfOk result (λ found. IfNone found (pager.new.state.asked ≡ pager.old.state.asked)) }
    ensures unchained { cell.now.payload.overflow ≡ None
        → WhereSteady pager.old.state (λ pages. (kind_by index.now.finder ≡ Index → IsUnchainedIndex pages table.now.root)
        → pager.new.state.chained ≡ pager.old.state.chained) }
    ensures reads { ReadsPages result pager.old.state pager.new.state }
{
    let Some(bytes) = bytes_in_range(alloc, pager, cell, &range.key_range())? else {
        return Ok(None);
    };
    let found = row_of_entry(alloc, pager, table, &index.finder, bytes.as_slice(), key)?;
    Ok(Some(found))
}

/// The row to which the entry at the position of a search of an index leads, where it meets the range; none where it doesn't, or
/// there is none. `key` is memory for the row's PRIMARY KEY. Its faults are `ReadFailed`, `NoMemory`, and `Changed`, which no
/// index gives that is stored as it was checked.
pub fn index_row<S: Source>(
    alloc: Global,
    pager: &mut Pager<S>,
    cursor: &Cursor,
    table: &Table,
    index: &RowIndex,
    range: &RangeValues,
    key: &mut Vec<Value>,
) -> Result<Option<Found>, Fault>
    ensures rows { WhereSteady pager.old.state (λ pages. (levels : ℕ) (entries : List EntryData)
        → AreToCome (of_index table.now index.now) pages levels range.now cursor.now entries
        → MatchResult result (λ found. GivesFound pages table.now entries found) IsReadFault) }
    ensures more { IfOk result (λ found. IfSome found (λ it. 0 < steps_left cursor.now)) }
    ensures only { IfErr result IsSearchFault }
    ensures asks { AsksOneWay pager.old.state pager.new.state (kind_by index.now.finder) table.now.root }
    ensures end { IfOk result (λ found. IfNone found (pager.new.state.asked ≡ pager.old.state.asked)) }
    ensures unchained { WhereSteady pager.old.state (λ pages. (levels : ℕ) (entries : List EntryData)
        → AreToCome (of_index table.now index.now) pages levels range.now cursor.now entries → HasNoChains (of_index table.now index.now) pages levels
        → HasLocalKeys pages table.now → pager.new.state.chained ≡ pager.old.state.chained) }
    ensures reads { ReadsPages result pager.old.state pager.new.state }
{
    let Some(cell) = cell_at(cursor)? else {
        return Ok(None);
    };
    entry_row(alloc, pager, &cell, table, index, range, key)
}

/// Goes on from a row or an entry that a search has given to the next, which may not meet the range; past the last the cursor
/// stays. Its faults are `ReadFailed`, `NoMemory`, and `Changed`, which no tree gives that is stored as it was checked.
pub fn next_entry<S: Source>(cursor: &mut Cursor, pager: &mut Pager<S>) -> Result<(), Fault>
    ensures rows { WhereSteady pager.old.state (λ pages. (searched : SearchedData) (levels : ℕ) (range : Range) (first : EntryData) (later : List EntryData)
        → AreToCome searched pages levels range cursor.old (first ∷ later)
        → MatchResult result (λ _. AreToCome searched pages levels range cursor.new later
        × (pager.new.state.asked ≤ pager.old.state.asked + levels)) IsReadFault) }
    ensures left { IfOk result (λ _. 0 < steps_left cursor.old → steps_left cursor.new < steps_left cursor.old) }
    ensures only { IfErr result IsSearchFault }
    ensures reads { ReadsTreePages result pager.old.state pager.new.state }
{
    match cursor.next(pager) {
        Ok(()) => Ok(()),
        Err(fault) => Err(search_fault(fault)),
    }
}
