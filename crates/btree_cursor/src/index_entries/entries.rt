//! An entry of an index, read in place.
ghost use Rattle.std.specs.Prelude.{◌≡◌, ◌⊎◌, ℕ, IfErr, List, MatchResult, None, Ok};
ghost use Rattle.values.specs.Datum.{Datum};
ghost use Rattle.pager.specs.Calls.{IsReadFault, ReadsChainPages};
ghost use Rattle.pager.specs.PagerState.{image_size};
ghost use Rattle.records.specs.Record.{Breaks, IsRecord};
ghost use Rattle.btree.specs.declared.image.kind.TreeKind.TheVariants.{Index};
ghost use Rattle.btree.specs.image.Cell.{CellData};
ghost use Rattle.btree.specs.image.Pages.{WhereSteady};
ghost use Rattle.btree.specs.image.Shape.{place_at};
ghost use Rattle.btree.specs.image.Tree.{Place};
ghost use Rattle.btree.specs.Bytes.{IsEntryCell};
ghost use Rattle.btree.specs.ViewData.{TellsOfCell};
ghost use Rattle.btree.specs.Views.{cell_data};
ghost use Rattle.btree_cursor.specs.index_entries.Entries.{AreValuesOf, BreaksCell, BreaksEntry, BreaksRecord, HasRecord, IsCompareFault, IsViewIn};
ghost use Rattle.btree_cursor.specs.index_entries.Sought.{comes_before};

use crate::index_entries::columns::IndexKey;
use btree::{Cell, PageView, payload};
use pager::{Pager, Source};
use records::{FieldReader, RecordFault, RecordView};
use std::alloc::Global;
use values::Fault;

/// The fault of a record of page `n` that isn't read, once its page is known.
pub fn record_fault(fault: RecordFault, n: u32) -> Fault
    ensures broken { (bytes : List ℕ) → Breaks fault bytes → BreaksRecord bytes n result }
    ensures memory { fault ≡ RecordFault.NoMemory → result ≡ Fault.NoMemory }
    ensures only { IsCompareFault n result }
{
    match fault {
        RecordFault::Bad => Fault::BadRecord(n),
        RecordFault::Float => Fault::FloatValue,
        RecordFault::Text => Fault::BadText,
        RecordFault::NoMemory => Fault::NoMemory,
    }
}

/// Why these bytes of page `n` are no record.
fn why_unread(alloc: Global, bytes: &[u8], n: u32) -> Fault
    ensures broken { ((values : List Datum) → ¬ IsRecord bytes.now values) → BreaksRecord bytes.now n result }
    ensures only { IsCompareFault n result }
{
    match RecordView::read(alloc, bytes) {
        Ok(_) => Fault::BadRecord(n),
        Err(fault) => record_fault(fault, n),
    }
}

/// Whether the record of an entry of page `n` comes before what is sought. Its faults are `BadRecord`, `FloatValue`, `BadText`
/// and `NoMemory`, and come only where it is no record.
fn record_comes_before(
    alloc: Global,
    key: &IndexKey<'_>,
    bytes: &[u8],
    n: u32,
) -> Result<bool, Fault>
    ensures found { (values : List Datum) → IsRecord bytes.now values → result ≡ Ok (comes_before key.now values) }
    ensures broken { IfErr result (BreaksRecord bytes.now n) }
    ensures only { IfErr result (IsCompareFault n) }
{
    let Some(mut fields) = FieldReader::new(bytes) else {
        return Err(why_unread(alloc, bytes, n));
    };
    match key.order(&mut fields) {
        Some(order) => Ok(key.is_behind(order)),
        None => Err(why_unread(alloc, bytes, n)),
    }
}

/// Whether the entry in this cell of page `n` of an index comes before what is sought. Its faults are those of reading, and
/// `BadChain`, `BadRecord`, `FloatValue` and `BadText` where the cell has no record.
pub fn cell_comes_before<S: Source>(
    alloc: Global,
    pager: &mut Pager<S>,
    cell: &Cell<'_>,
    n: u32,
    key: &IndexKey<'_>,
) -> Result<bool, Fault>
    ensures found { WhereSteady pager.old.state (λ pages. (values : List Datum) → HasRecord pages (cell_data cell.now) values
        → MatchResult result (λ before. before ≡ comes_before key.now values) IsReadFault) }
    ensures broken { WhereSteady pager.old.state (λ pages. IfErr result (λ e. IsReadFault e ⊎ BreaksCell pages n (cell_data cell.now) e)) }
    ensures only { IfErr result (IsCompareFault n) }
    ensures local { cell.now.payload.overflow ≡ None → pager.new.state ≡ pager.old.state }
    ensures reads { ReadsChainPages result pager.old.state pager.new.state }
{
    let Some(bytes) = payload(alloc, pager, cell)? else {
        return Err(Fault::BadChain(n));
    };
    record_comes_before(alloc, key, bytes.as_slice(), n)
}

/// Whether entry i of page `n` of an index, which was read as this view, comes before what is sought. Its faults are those of
/// reading, and `BadPage`, `BadChain`, `BadRecord`, `FloatValue` and `BadText` where the entry can't be read.
pub(crate) fn entry_comes_before<S: Source>(
    alloc: Global,
    pager: &mut Pager<S>,
    view: &PageView<'_>,
    n: u32,
    i: u32,
    key: &IndexKey<'_>,
) -> Result<bool, Fault>
    requires { TellsOfCell view.now Index view.now.level i }
    ensures found { WhereSteady pager.old.state (λ pages. (values : Place → List Datum) → IsViewIn pages n view.now
        → AreValuesOf pages values view.now.level n
        → MatchResult result (λ before. before ≡ comes_before key.now (values (place_at n i))) IsReadFault) }
    ensures broken { WhereSteady pager.old.state (λ pages. IsViewIn pages n view.now
        → IfErr result (λ e. IsReadFault e ⊎ BreaksEntry pages view.now.level n e)) }
    ensures only { IfErr result (IsCompareFault n) }
    ensures local { ((cell : CellData) → IsEntryCell view.now.at (image_size pager.old.state.header) view.now.level view.now.page i cell
        → cell.payload.overflow ≡ None) → pager.new.state ≡ pager.old.state }
    ensures reads { ReadsChainPages result pager.old.state pager.new.state }
{
    let most = pager.header().image_size();
    let Some(cell) = view.entry(most, i) else {
        return Err(Fault::BadPage(n));
    };
    cell_comes_before(alloc, pager, &cell, n, key)
}
