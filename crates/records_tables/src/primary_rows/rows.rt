//! A record as a row of its table.
ghost use Rattle.std.specs.Prelude.{◌≡◌, ◌<◌, ◌↔◌, IfErr, IfNone, IfSome, IsTrue, List, OnOk, Some, length, map, slice_get, Contains};
ghost use Rattle.values.specs.Datum.{Datum, datum_of_ref};
ghost use Rattle.records.specs.Record.{IsRecord};
ghost use Rattle.schema_tables.specs.TableData.{MissingData};
ghost use Rattle.records_tables.specs.stored_rows.Stored.{Fits};
ghost use Rattle.records_tables.specs.primary_rows.Order.{IsOrderOf};
ghost use Rattle.records_tables.specs.primary_rows.Rows.{BreaksRowRecord, IsPrimaryFault, IsStoredRow, told_values};

use crate::primary_rows::order::RecordOrder;
use crate::stored_rows::fits_column;
use btree_cursor::record_fault;
use records::RecordView;
use schema_tables::{Column, Missing, Table};
use std::alloc::Global;
use values::{Fault, ValueRef};

/// What a row that is older than a column has in it; `None` where that isn't known. (ALTER TABLE ADD COLUMN)
fn older_value(column: &Column) -> Option<ValueRef<'_>>
    ensures found { IfSome result (λ value. column.now.missing ≡ MissingData.Fill (datum_of_ref value)) }
    ensures none { IfNone result (column.now.missing ≡ MissingData.Refused) }
{
    match column.missing() {
        Missing::Fill(value) => Some(value.as_ref()),
        Missing::Refused => None,
    }
}

/// What is in a column of a table, counted from 0, of a record with these fields; `None` where that isn't known.
pub fn column_value<'p>(
    table: &'p Table,
    order: &RecordOrder,
    fields: &RecordView<'p>,
    column: usize,
) -> Option<ValueRef<'p>>
    requires order { IsOrderOf table.now order.now }
    requires within { column < length table.now.columns }
    ensures found { IfSome result (λ value. slice_get (told_values table.now fields.now) column ≡ Some (MissingData.Fill (datum_of_ref value))) }
    ensures none { IfNone result (slice_get (told_values table.now fields.now) column ≡ Some MissingData.Refused) }
{
    let place = order.places[column];
    if place < fields.count() {
        return Some(fields.field(place));
    }
    older_value(&table.columns()[column])
}

/// Whether the values of the row of a record with these fields are of their columns; `None` where one of them isn't known.
fn fits<'p>(table: &'p Table, order: &RecordOrder, fields: &RecordView<'p>) -> Option<bool>
    requires { IsOrderOf table.now order.now }
    ensures row { IfSome result (λ fit. (row : List Datum) × (map MissingData.Fill row ≡ told_values table.now fields.now)
        × (IsTrue fit ↔ Fits table.now row)) }
    ensures none { IfNone result (Contains (told_values table.now fields.now) MissingData.Refused) }
{
    let mut fit = true;
    for (i, column) in table.columns().iter().enumerate() {
        let value = column_value(table, order, fields, i)?;
        let is_of_column = fits_column(column, value);
        fit = fit & is_of_column;
    }
    Some(fit)
}

/// Tests that the bytes of an entry's payload are the record of a row of a table, whose values are of its columns. The entry
/// stands on page `n`. (Database File Format, section 2.4 "Representation Of WITHOUT ROWID Tables")
///
/// # Errors
///
/// `BadRecord`, `FloatValue`, `BadText` and `ValueBreaksColumn` where the record has that condition, and `NoMemory`.
pub fn check_primary_row(
    alloc: Global,
    table: &Table,
    order: &RecordOrder,
    payload: &[u8],
    n: u32,
) -> Result<(), Fault>
    requires { IsOrderOf table.now order.now }
    ensures row { OnOk result ((values : List Datum) × IsRecord payload.now values × IsStoredRow table.now values) }
    ensures fault { IfErr result (BreaksRowRecord table.now payload.now n) }
    ensures only { IfErr result (IsPrimaryFault n) }
{
    let fields = match RecordView::read(alloc, payload) {
        Ok(fields) => fields,
        Err(fault) => return Err(record_fault(fault, n)),
    };
    if !order.allow(fields.count()) {
        return Err(Fault::BadRecord(n));
    }
    let Some(fit) = fits(table, order, &fields) else {
        return Err(Fault::BadRecord(n));
    };
    if !fit {
        let name = String::from_str(alloc, table.name())?;
        return Err(Fault::ValueBreaksColumn(name));
    }
    Ok(())
}
