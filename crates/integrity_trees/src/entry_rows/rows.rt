//! The entries of an index, as rows.
ghost use Rattle.std.specs.Prelude.{◌≡◌, ◌⊎◌, ◌+◌, ◌<◌, ◌≤◌, ℕ, Bool, IfErr, IfOk, IfSome, List, MatchResult, None, OnOk};
ghost use Rattle.values.specs.Datum.{Datum};
ghost use Rattle.pager.specs.Calls.{IsReadFault, ReadsChainPages, ReadsPages};
ghost use Rattle.records.specs.Record.{IsRecord};
ghost use Rattle.btree.specs.declared.image.kind.TreeKind.TheVariants.{Index};
ghost use Rattle.btree.specs.declared.image.kind.Level.{Level};
ghost use Rattle.btree.specs.image.Broken.{BlamesMet};
ghost use Rattle.btree.specs.image.Pages.{WhereSteady};
ghost use Rattle.btree.specs.image.Shape.{size_under};
ghost use Rattle.btree.specs.image.Tree.{Place, count_at};
ghost use Rattle.btree.specs.Views.{cell_data};
ghost use Rattle.btree_cursor.specs.index_entries.Entries.{BreaksEntry, BreaksRecord, HasRecord, IsCompareFault, IsEntryOn};
ghost use Rattle.btree_cursor.specs.cursor.Search.{BlamesEntry, IsIndexFault, IsSearchableIndex, IsUnchainedIndex};
ghost use Rattle.integrity_trees.specs.entry_rows.Rows.{AreEntryRows};

use btree::{Cell, TreeKind, payload};
use btree_cursor::{Cursor, record_fault};
use pager::{Pager, Source};
use records::{FieldReader, RecordView};
use std::alloc::{AllocError, Global};
use values::{Fault, Row};

/// The row of the values of a record.
fn row_of(alloc: Global, stored: &RecordView<'_>) -> Result<Row, AllocError>
    ensures { IfOk result (λ row. row ≡ stored.now) }
{
    let mut row = Row::with_capacity(alloc, stored.count())?;
    for index in 0..stored.count() {
        let value = stored.field(index).to_value(alloc)?;
        row.push(value)?;
    }
    Ok(row)
}

/// The row of the values of a record, each of which is copied as it is met. `None` says nothing of the bytes.
fn copied_row(alloc: Global, bytes: &[u8]) -> Result<Option<Row>, AllocError>
    ensures { IfOk result (λ found. IfSome found (IsRecord bytes.now)) }
{
    let Some(mut fields) = FieldReader::new(bytes) else {
        return Ok(None);
    };
    let mut row = Row::new(alloc);
    for _passed in 0..bytes.len() {
        if fields.is_done() {
            return Ok(Some(row));
        }
        let Some(value) = fields.read() else {
            return Ok(None);
        };
        let copied = value.to_value(alloc)?;
        row.push(copied)?;
    }
    Ok(None)
}

/// The row of the values of a record of page `n`. Its faults are `NoMemory`, and `BadRecord`, `FloatValue` and `BadText` where
/// the bytes are no record.
fn record_row(alloc: Global, bytes: &[u8], n: u32) -> Result<Row, Fault>
    ensures row { (values : List Datum) → IsRecord bytes.now values
        → MatchResult result (λ row. row ≡ values) (λ e. e ≡ Fault.NoMemory) }
    ensures is { IfOk result (IsRecord bytes.now) }
    ensures broken { IfErr result (BreaksRecord bytes.now n) }
    ensures only { IfErr result (IsCompareFault n) }
{
    if let Some(row) = copied_row(alloc, bytes)? {
        return Ok(row);
    }
    // What is no record is found by a second reading.
    match RecordView::read(alloc, bytes) {
        Ok(stored) => Ok(row_of(alloc, &stored)?),
        Err(fault) => Err(record_fault(fault, n)),
    }
}

/// The row of the values of an entry of page `n`. Its faults are those of reading, and `BadChain`, `BadRecord`, `FloatValue`
/// and `BadText` where the entry can't be read. Where the entry has no overflow pages nothing is asked for.
pub fn entry_row<S: Source>(
    alloc: Global,
    pager: &mut Pager<S>,
    cell: &Cell<'_>,
    n: u32,
) -> Result<Row, Fault>
    ensures row { WhereSteady pager.old.state (λ pages. (values : List Datum) → HasRecord pages (cell_data cell.now) values
        → MatchResult result (λ row. row ≡ values) IsReadFault) }
    ensures is { WhereSteady pager.old.state (λ pages. IfOk result (HasRecord pages (cell_data cell.now))) }
    ensures broken { WhereSteady pager.old.state (λ pages. (level : Level) (i : ℕ) → i < count_at pages n
        → IsEntryOn pages level n i (cell_data cell.now) → IfErr result (λ e. IsReadFault e ⊎ BreaksEntry pages level n e)) }
    ensures only { IfErr result (IsCompareFault n) }
    ensures local { cell.now.payload.overflow ≡ None → pager.new.state ≡ pager.old.state }
    ensures reads { ReadsChainPages result pager.old.state pager.new.state }
{
    let Some(bytes) = payload(alloc, pager, cell)? else {
        return Err(Fault::BadChain(n));
    };
    record_row(alloc, bytes.as_slice(), n)
}

/// All entries of the index that has this root, in their order, each as the row of its values. Its faults are those of a
/// cursor, and `BadChain`, `BadRecord`, `FloatValue` and `BadText` of an entry that can't be read. No page of an overflow
/// chain is asked for where no entry has one.
pub fn all_entries<S: Source>(
    alloc: Global,
    pager: &mut Pager<S>,
    root: u32,
) -> Result<Vec<Row>, Fault>
    ensures rows { WhereSteady pager.old.state (λ pages. (descends : List Bool) (values : Place → List Datum) (levels : ℕ)
        → IsSearchableIndex pages descends values levels root
        → MatchResult result (λ rows. AreEntryRows pages descends values root rows.items) IsReadFault) }
    ensures asks { WhereSteady pager.old.state (λ pages. (descends : List Bool) (values : Place → List Datum) (levels : ℕ)
        → IsSearchableIndex pages descends values levels root
        → OnOk result (pager.new.state.asked ≤ pager.old.state.asked + size_under pages levels root)) }
    ensures only { IfErr result (IsIndexFault root) }
    ensures cause { WhereSteady pager.old.state (λ pages.
        IfErr result (λ e. IsReadFault e ⊎ (BlamesMet pages Index root e ⊎ BlamesEntry pages root e))) }
    ensures unchained { WhereSteady pager.old.state (λ pages. IsUnchainedIndex pages root
        → pager.new.state.chained ≡ pager.old.state.chained) }
    ensures reads { ReadsPages result pager.old.state pager.new.state }
{
    let mut cursor = Cursor::first(alloc, pager, TreeKind::Index, root)?;
    let mut rows = Vec::new(alloc);
    while let Some(cell) = cursor.entry()? {
        let page = cursor.page().ok_or(Fault::Finished)?;
        let row = entry_row(alloc, pager, &cell, page)?;
        rows.push(row)?;
        cursor.next(pager)?;
    }
    Ok(rows)
}
