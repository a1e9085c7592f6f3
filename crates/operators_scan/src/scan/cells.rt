//! The columns that are read of a cell, put after the front of a row.
ghost use Rattle.std.specs.Prelude.{◌≡◌, ◌⊎◌, ◌<◌, ◌≤◌, ◌+◌, ◌++◌, ℕ, All, IfErr, IfOk, List, MatchResult, None, length, map, take};
ghost use Rattle.std.specs.Cow.{cow_slice_items};
ghost use Rattle.values.specs.Datum.{datum_of};
ghost use Rattle.values.specs.Row.{Row, Grows};
ghost use Rattle.pager.specs.Calls.{IsReadFault, ReadsChainPages};
ghost use Rattle.btree.specs.image.Chain.{HasBytes};
ghost use Rattle.btree.specs.image.Pages.{WhereSteady};
ghost use Rattle.btree.specs.Views.{payload_data};
ghost use Rattle.semantics.specs.OneTable.{shown};
ghost use Rattle.records_tables.specs.Reading.{IsReadingRow, table_read};
ghost use Rattle.operators_scan.specs.scan.Coming.{IsScanFault};

use crate::scan::buffer::put_value;
use btree::{Cell, payload};
use pager::{Pager, Source};
use records_tables::ValueReader;
use std::alloc::Global;
use std::borrow::CowSlice;
use values::{Fault, Value};

/// The payload of a cell. Its faults are `ReadFailed`, `NoMemory`, and `Changed` where its overflow pages are no chain.
pub fn payload_of<'p, S: Source>(
    alloc: Global,
    pager: &mut Pager<S>,
    cell: &Cell<'p>,
) -> Result<CowSlice<'p, u8>, Fault>
    ensures bytes { WhereSteady pager.old.state (λ pages. (bytes : List ℕ)
        → HasBytes pages (payload_data cell.now.payload) bytes
        → MatchResult result (λ found. cow_slice_items found ≡ bytes) IsReadFault) }
    ensures only { IfErr result IsScanFault }
    ensures reads { ReadsChainPages result pager.old.state pager.new.state }
    ensures unread { cell.now.payload.overflow ≡ None → pager.new.state ≡ pager.old.state }
{
    payload(alloc, pager, cell)?.ok_or(Fault::Changed)
}

/// Puts the values that a reader gives of these columns into the places of a row from `at` on, over what stands there. Its faults
/// are `NoMemory`, and `Changed` where the payload is no row.
#[inline(always)]
pub fn put_columns(
    alloc: Global,
    reader: &mut ValueReader<'_>,
    columns: &[usize],
    at: usize,
    row: &mut Vec<Value>,
) -> Result<(), Fault>
    requires columns { All (λ column. column < length (table_read reader.old).columns) columns.now }
    requires at { at ≤ length row.old.items }
    ensures shown { (whole : Row) → IsReadingRow reader.old whole
        → MatchResult result
        (λ _. (take (at + length columns.now) (map datum_of row.new.items) ≡ take at (map datum_of row.old.items) ++ shown columns.now whole)
        × IsReadingRow reader.new whole)
        (λ e. e ≡ Fault.NoMemory) }
    ensures front { IfOk result (λ _. Grows (take at (map datum_of row.old.items)) (take (at + length columns.now) (map datum_of row.new.items))) }
    ensures long { IfOk result (λ _. at + length columns.now ≤ length row.new.items) }
    ensures table { table_read reader.new ≡ table_read reader.old }
    ensures only { IfErr result (λ e. (e ≡ Fault.NoMemory) ⊎ (e ≡ Fault.Changed)) }
{
    let mut next = at;
    for column in columns {
        let Some(value) = reader.value(*column) else {
            return Err(Fault::Changed);
        };
        put_value(alloc, row, next, value)?;
        next += 1;
    }
    Ok(())
}
