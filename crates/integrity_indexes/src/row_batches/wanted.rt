//! The code of the entry that a row of a table with rowids requires in an index.
ghost use Rattle.std.specs.Prelude.{◌≡◌, ◌≢◌, ◌++◌, All, IfErr, IfNone, IfOk, IfSome, IsFalse, IsTrue, MatchResult, length, option_map, slice_index_or};
ghost use Rattle.values.specs.Datum.{datum_of_ref, null};
ghost use Rattle.values.specs.Row.{Row};
ghost use Rattle.pager.specs.Calls.{IsReadFault};
ghost use Rattle.expr.specs.View.{term};
ghost use Rattle.integrity_indexes.specs.entry_batches.Codes.{IsHeld, codes_of};
ghost use Rattle.integrity_trees.specs.wanted_entries.Wanted.{values_at};
ghost use Rattle.records_tables.specs.stored_rows.Reading.{IsReading};
ghost use Rattle.records_tables.specs.stored_rows.RowFaults.{IsRowFault};
ghost use Rattle.records_tables.specs.stored_rows.Stored.{IsRowRecord};
ghost use Rattle.integrity_indexes.specs.index_rows.Kept.{keeps_row};
ghost use Rattle.integrity_indexes.specs.row_batches.Runs.{IsCodeOf};

use crate::entry_batches::push_value;
use crate::index_rows::is_kept;
use expr::Expr;
use records_tables::{RowReader, read_row};
use schema_tables::Table;
use std::alloc::{AllocError, Global};
use values::{Fault, ValueRef};

/// The value of a row in a column, NULL where the table has no such column; `None` where the payload is no row.
fn value_at<'p>(reader: &mut RowReader<'p>, columns: usize, place: usize) -> Option<ValueRef<'p>>
    requires { columns ≡ length reader.old.table.columns }
    ensures found { IfSome result (λ value. (row : Row) → IsReading reader.old row
        → (datum_of_ref value ≡ slice_index_or row place null) × IsReading reader.new row) }
    ensures none { IfNone result ((row : Row) → ¬ IsReading reader.old row) }
    ensures table { reader.new.table ≡ reader.old.table }
{
    if place < columns {
        reader.value(place)
    } else {
        Some(ValueRef::Null)
    }
}

/// Puts the code of the values of a row in these columns behind others; tells whether the payload is a row.
fn push_places(
    code: &mut Vec<u8>,
    reader: &mut RowReader<'_>,
    columns: usize,
    places: &[usize],
) -> Result<bool, AllocError>
    requires { columns ≡ length reader.old.table.columns }
    ensures code { IfOk result (λ read. IsTrue read → (row : Row) → IsReading reader.old row
        → (code.new.items ≡ code.old.items ++ codes_of (values_at row places.now)) × All IsHeld (values_at row places.now)) }
    ensures none { IfOk result (λ read. IsFalse read → (row : Row) → ¬ IsReading reader.old row) }
{
    for i in 0..places.len() {
        let Some(value) = value_at(reader, columns, places[i]) else {
            return Ok(false);
        };
        push_value(code, value)?;
    }
    Ok(true)
}

/// The code of the values that the row that a payload is has in these columns, in a buffer that is used again; tells whether the
/// payload is a row. A column that the record lacks has its default.
pub(crate) fn write_code(
    table: &Table,
    rowid: Option<i64>,
    payload: &[u8],
    places: &[usize],
    code: &mut Vec<u8>,
) -> Result<bool, AllocError>
    ensures code { IfOk result (λ read. IsTrue read → (row : Row) → IsRowRecord table.now rowid payload.now row
        → IsCodeOf places.now row code.new.items) }
    ensures none { IfOk result (λ read. IsFalse read → (row : Row) → ¬ IsRowRecord table.now rowid payload.now row) }
{
    code.clear();
    let columns = table.columns().len();
    let Some(mut reader) = RowReader::new(table, rowid, payload) else {
        return Ok(false);
    };
    push_places(code, &mut reader, columns, places)
}

/// Whether an index that has this condition, if it has one, keeps the row that a payload is, which a cell of page `n` has.
pub(crate) fn is_row_kept(
    alloc: Global,
    table: &Table,
    rowid: Option<i64>,
    payload: &[u8],
    condition: Option<&Expr>,
    n: u32,
) -> Result<bool, Fault>
    ensures kept { (row : Row) → IsRowRecord table.now rowid payload.now row → MatchResult result
        (λ kept. kept ≡ keeps_row (option_map (λ e. term e.now) condition.entry) row) IsReadFault }
    ensures only { IfErr result IsRowFault }
    ensures unread { IfErr result (λ e. e ≢ Fault.ReadFailed) }
{
    let Some(_) = condition else {
        return Ok(true);
    };
    let row = read_row(alloc, table, rowid, payload, n)?;
    Ok(is_kept(alloc, condition, &row)?)
}
