//! A row of a table without rowids, with its values in memory of their own.
ghost use Rattle.std.specs.Prelude.{◌≡◌, ◌⊎◌, Contains, IfErr, IfNone, IfOk, IfSome, List, MatchResult, map};
ghost use Rattle.values.specs.Datum.{Datum};
ghost use Rattle.pager.specs.Calls.{IsReadFault};
ghost use Rattle.records.specs.Record.{IsRecord};
ghost use Rattle.btree_cursor.specs.index_entries.Entries.{BreaksRecord, IsCompareFault};
ghost use Rattle.schema_tables.specs.TableData.{MissingData};
ghost use Rattle.records_tables.specs.primary_rows.Order.{IsOrderOf};
ghost use Rattle.records_tables.specs.primary_rows.Rows.{IsPrimaryRow, told_values};

use btree_cursor::record_fault;
use records::RecordView;
use records_tables::{RecordOrder, column_value};
use schema_tables::Table;
use std::alloc::{AllocError, Global};
use values::{Fault, Row};

/// The row of a table without rowids whose record has these fields; `None` where one of its values isn't known.
fn row_of<'p>(
    alloc: Global,
    table: &'p Table,
    order: &RecordOrder,
    fields: &RecordView<'p>,
) -> Result<Option<Row>, AllocError>
    requires { IsOrderOf table.now order.now }
    ensures found { IfOk result (λ found. IfSome found (λ row. map MissingData.Fill row ≡ told_values table.now fields.now)) }
    ensures none { IfOk result (λ found. IfNone found (Contains (told_values table.now fields.now) MissingData.Refused)) }
{
    let mut row = Row::new(alloc);
    for column in 0..table.columns().len() {
        let Some(value) = column_value(table, order, fields, column) else {
            return Ok(None);
        };
        row.push(value.to_value(alloc)?)?;
    }
    Ok(Some(row))
}

/// The row of a table without rowids that the bytes of a payload are, which an entry of page `n` has. (Database File Format,
/// section 2.4 "Representation Of WITHOUT ROWID Tables")
pub(crate) fn read_primary_row(
    alloc: Global,
    table: &Table,
    order: &RecordOrder,
    payload: &[u8],
    n: u32,
) -> Result<Row, Fault>
    requires { IsOrderOf table.now order.now }
    ensures row { (values row : List Datum) → IsRecord payload.now values → IsPrimaryRow table.now values row
        → MatchResult result (λ found. found ≡ row) IsReadFault }
    ensures fault { IfErr result (λ e. BreaksRecord payload.now n e ⊎ (e ≡ Fault.BadRecord n)) }
    ensures only { IfErr result (IsCompareFault n) }
{
    let fields = match RecordView::read(alloc, payload) {
        Ok(fields) => fields,
        Err(fault) => return Err(record_fault(fault, n)),
    };
    let Some(row) = row_of(alloc, table, order, &fields)? else {
        return Err(Fault::BadRecord(n));
    };
    Ok(row)
}
