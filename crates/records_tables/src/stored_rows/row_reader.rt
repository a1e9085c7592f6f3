//! A row of a table, of which only the values asked for are read.
ghost use Rattle.std.specs.Prelude.{◌≡◌, ◌<◌, ◌≤◌, IfNone, IfSome, IsFalse, IsTrue, None, Some, length, slice_get};
ghost use Rattle.values.specs.Datum.{datum_of_ref};
ghost use Rattle.values.specs.Row.{Row};
ghost use Rattle.schema_tables.specs.TableData.{rowid_of};
ghost use Rattle.records_tables.specs.stored_rows.Reading.{GoesBack, IsReading};
ghost use Rattle.records_tables.specs.stored_rows.Stored.{IsRowRecord};

use crate::stored_rows::rows::older_value;
use records::FieldReader;
use schema_tables::Table;
use std::marker::Model;
use values::ValueRef;

/// Reads single values of a row in place, and takes no memory. It looks at no more of the record than it is asked for.
#[derive(Debug, Drop)]
pub struct RowReader<'p> {
    table: &'p Table,
    rowid: Option<i64>,
    width: usize,
    payload: &'p [u8],
    fields: FieldReader<'p>,
    at: usize,
}

impl<'p> Model for RowReader<'p> {
    ghost use Rattle.std.specs.Prelude.{◌≡◌, ◌<◌, ◌^◌, length};
    ghost use Rattle.records_tables.specs.stored_rows.Reading.{Reading};

    ghost Value = { Reading };

    ghost view = { λ r. record { table = r.table.now; rowid = r.rowid; payload = r.payload.now; unread = r.fields; at = r.at } };

    ghost invariant = { λ r. (r.width ≡ length r.table.now.columns) × (r.width < 2 ^ 64) };
}

impl<'p> RowReader<'p> {
    /// A reader of the row that these bytes of a payload are, with this rowid; `None` where they are none. (Database File
    /// Format, section 2.3 "Representation Of SQL Tables")
    #[inline(always)]
    pub fn new(table: &'p Table, rowid: Option<i64>, payload: &'p [u8]) -> Option<RowReader<'p>>
        ensures found { IfSome result (λ reader. (reader.table ≡ table.now)
            × ((row : Row) → IsRowRecord table.now rowid payload.now row → IsReading reader row)) }
        ensures none { IfNone result ((row : Row) → ¬ IsRowRecord table.now rowid payload.now row) }
    {
        let fields = FieldReader::new(payload)?;
        Some(RowReader {
            table,
            rowid,
            width: table.columns().len(),
            payload,
            fields,
            at: 0,
        })
    }

    /// The rowid, where the row has it in this column.
    #[inline(always)]
    fn rowid_at(&self, column: usize) -> Option<i64>
        ensures found { IfSome result (λ rowid. (rowid_of self.now.table.key ≡ Some column) × (self.now.rowid ≡ Some rowid)) }
        ensures none { IfNone result (rowid_of self.now.table.key ≡ Some column → self.now.rowid ≡ None) }
    {
        match (self.table.rowid(), self.rowid) {
            (Some(key), Some(rowid)) if key == column => Some(rowid),
            _ => None,
        }
    }

    /// Goes back to the first field, where that of this column was passed. The answer is `false` where there is none.
    #[inline(always)]
    fn go_back(&mut self, column: usize) -> bool
        ensures back { IsTrue result → GoesBack self.old self.new column }
        ensures none { IsFalse result → (row : Row) → ¬ IsReading self.old row }
        ensures table { self.new.table ≡ self.old.table }
    {
        if self.at <= column {
            return true;
        }
        let Some(fields) = FieldReader::new(self.payload) else {
            return false;
        };
        self.fields = fields;
        self.at = 0;
        true
    }

    /// The field of the record at a column that wasn't passed; `None` where the record has fewer.
    #[inline(always)]
    fn stored(&mut self, column: usize) -> Option<ValueRef<'p>>
        requires within { column < length self.old.table.columns }
        requires before { self.old.at ≤ column }
        ensures found { IfSome result (λ value. (row : Row) → (is : IsReading self.old row)
            → (slice_get is.values column ≡ Some (datum_of_ref value)) × IsReading self.new row) }
        ensures none { IfNone result ((row : Row) → (is : IsReading self.old row)
            → (length is.values ≤ column) × IsReading self.new row) }
        ensures table { self.new.table ≡ self.old.table }
    {
        let passed = self.fields.skip(column - self.at);
        self.at = column;
        if !passed {
            return None;
        }
        let value = self.fields.read()?;
        self.at = column + 1;
        Some(value)
    }

    /// The value of a column, counted from 0; a text or a blob is a slice of the payload, or of the column's DEFAULT where
    /// the row is older. `None` where the payload is no such row. Columns that are asked for in their order are found in
    /// one walk along the record; for a column before the last one the walk begins anew.
    #[inline(always)]
    pub fn value(&mut self, column: usize) -> Option<ValueRef<'p>>
        requires { column < length self.old.table.columns }
        ensures found { IfSome result (λ value. (row : Row) → IsReading self.old row
            → (slice_get row column ≡ Some (datum_of_ref value)) × IsReading self.new row) }
        ensures none { IfNone result ((row : Row) → ¬ IsReading self.old row) }
        ensures table { self.new.table ≡ self.old.table }
    {
        if let Some(rowid) = self.rowid_at(column) {
            return Some(ValueRef::Int(rowid));
        }
        if !self.go_back(column) {
            return None;
        }
        if let Some(value) = self.stored(column) {
            return Some(value);
        }
        older_value(self.table, column)
    }
}
