//! Columns of a table's rows, written one by one as they are read.
ghost use Rattle.std.specs.Prelude.{◌≡◌, ◌⊎◌, ◌<◌, ◌∷◌, [], All, IfErr, MatchResult, None, OnOk, length, map};
ghost use Rattle.std.specs.Io.KnownBytes.{Appends};
ghost use Rattle.values.specs.Datum.{datum_of_ref};
ghost use Rattle.values.specs.Fault.{Counts};
ghost use Rattle.pager.specs.Calls.{ReadsChainPages, ReadsPages};
ghost use Rattle.pager.specs.PagerState.{IsPageNumber};
ghost use Rattle.btree.specs.image.Pages.{WhereSteady};
ghost use Rattle.btree.specs.Views.{cell_data};
ghost use Rattle.values.specs.Row.{Row};
ghost use Rattle.explain.specs.Text.{row_text};
ghost use Rattle.records_tables.specs.Tables.{IsAnyRecord, IsAnyRow, IsAnyStored};
ghost use Rattle.semantics.specs.OneTable.{shown};
ghost use Rattle.operators_runs.specs.Stream.{AsksFew, Streams, StreamsUntil};

use btree::Cell;
use btree_cursor::Cursor;
use explain::row_text;
use operators_scan::payload_of;
use pager::{Pager, Source};
use records_tables::{ValueReader, tree_kind};
use schema_tables::Table;
use smallvec::SmallVec;
use std::alloc::Global;
use values::{Fault, Sink, ValueRef};

/// The values of these columns of the row that the bytes of a payload are. Its faults are `NoMemory`, and `Changed` where
/// they are none.
fn shown_values<'p>(
    alloc: Global,
    table: &'p Table,
    rowid: Option<i64>,
    payload: &'p [u8],
    columns: &[usize],
) -> Result<SmallVec<ValueRef<'p>, 8>, Fault>
    requires { All (λ at. at < length table.now.columns) columns.now }
    ensures shown { (row : Row) → IsAnyRecord table.now rowid payload.now row
        → MatchResult result (λ values. map datum_of_ref values.items ≡ shown columns.now row) (λ e. e ≡ Fault.NoMemory) }
    ensures only { IfErr result (λ e. (e ≡ Fault.NoMemory) ⊎ (e ≡ Fault.Changed)) }
{
    let mut values = SmallVec::new(alloc);
    let Some(mut reader) = ValueReader::new(table, rowid, payload) else {
        return Err(Fault::Changed);
    };
    for column in columns {
        let Some(value) = reader.value(*column) else {
            return Err(Fault::Changed);
        };
        values.push(value)?;
    }
    Ok(values)
}

/// Writes these columns of the row that a cell is.
fn write_cell<S: Source, W: Sink>(
    alloc: Global,
    pager: &mut Pager<S>,
    table: &Table,
    cell: &Cell<'_>,
    columns: &[usize],
    out: &mut W,
) -> Result<(), Fault>
    requires { All (λ at. at < length table.now.columns) columns.now }
    ensures rows { WhereSteady pager.old.state (λ pages. (row : Row)
        → IsAnyRow pages table.now (cell_data cell.now) row
        → MatchResult result
        (λ _. Appends (W.facts out.old).written (W.facts out.new).written (row_text (shown columns.now row)))
        (λ e. StreamsUntil e columns.now (row ∷ []) (W.facts out.old) (W.facts out.new))) }
    ensures reads { ReadsChainPages result pager.old.state pager.new.state }
    ensures writes { Counts Fault.WriteFailed result (W.facts out.old).failures (W.facts out.new).failures }
    ensures unread { cell.now.payload.overflow ≡ None → pager.new.state ≡ pager.old.state }
{
    let bytes = payload_of(alloc, pager, cell)?;
    let values = shown_values(alloc, table, cell.rowid, bytes.as_slice(), columns)?;
    row_text(values.as_slice(), out)
}

/// Writes the rows of a table as lines, each showing these columns, and counts them. Its faults are `ReadFailed`,
/// `NoMemory`, `WriteFailed`, and others which no table gives that is stored as it was checked.
pub(crate) fn write_rows<S: Source, W: Sink>(
    alloc: Global,
    pager: &mut Pager<S>,
    table: &Table,
    columns: &[usize],
    out: &mut W,
) -> Result<u64, Fault>
    requires root { IsPageNumber pager.old.state table.now.root }
    requires columns { All (λ at. at < length table.now.columns) columns.now }
    ensures rows { WhereSteady pager.old.state (λ pages. (stored : IsAnyStored pages table.now)
        → MatchResult result (λ counted. Streams columns.now stored.rows counted (W.facts out.old) (W.facts out.new))
        (λ e. StreamsUntil e columns.now stored.rows (W.facts out.old) (W.facts out.new))) }
    ensures pages { WhereSteady pager.old.state (λ pages. (stored : IsAnyStored pages table.now)
        → OnOk result (AsksFew pages table.now stored.levels pager.old.state pager.new.state)) }
    ensures reads { ReadsPages result pager.old.state pager.new.state }
    ensures writes { Counts Fault.WriteFailed result (W.facts out.old).failures (W.facts out.new).failures }
{
    let mut cursor = Cursor::first(alloc, pager, tree_kind(table), table.root())?;
    let mut count = 0u64;
    while let Some(cell) = cursor.entry()? {
        write_cell(alloc, pager, table, &cell, columns, out)?;
        cursor.next(pager)?;
        count = count.saturating_add(1);
    }
    Ok(count)
}
