//! A row of a table without rowids, of which only the values asked for are read.
ghost use Rattle.std.specs.Prelude.{◌≡◌, ◌<◌, ◌≤◌, All, IfNone, IfSome, IsFalse, IsTrue, Some, length, slice_get};
ghost use Rattle.values.specs.Datum.{datum_of_ref};
ghost use Rattle.values.specs.Row.{Row};
ghost use Rattle.schema_tables.specs.TableData.{MissingData};
ghost use Rattle.records_tables.specs.primary_rows.Firsts.{place_of};
ghost use Rattle.records_tables.specs.primary_rows.Order.{primary_of, record_order};
ghost use Rattle.records_tables.specs.Keyed.{GoesBackTo, IsKeyReading};
ghost use Rattle.records_tables.specs.Tables.{IsPrimaryRecord};

use crate::places::record_place;
use records::FieldReader;
use schema_tables::{Column, Missing, Table};
use std::marker::Model;
use values::ValueRef;

/// What a row that is older than a column has in it; `None` where that isn't known. (ALTER TABLE ADD COLUMN)
fn older_value(column: &Column) -> Option<ValueRef<'_>>
    ensures found { IfSome result (λ value. column.now.missing ≡ MissingData.Fill (datum_of_ref value)) }
    ensures none { IfNone result (column.now.missing ≡ MissingData.Refused) }
{
    match column.missing() {
        Missing::Fill(value) => Some(value.as_ref()),
        Missing::Refused => None,
    }
}

/// Reads single values of a row in place, and takes no memory. It looks at no more of the record than it is asked for.
#[derive(Debug, Drop)]
pub struct KeyReader<'p> {
    table: &'p Table,
    key: &'p [usize],
    width: usize,
    payload: &'p [u8],
    fields: FieldReader<'p>,
    at: usize,
}

impl<'p> Model for KeyReader<'p> {
    ghost use Rattle.std.specs.Prelude.{◌≡◌, ◌<◌, ◌^◌, All, length};
    ghost use Rattle.records_tables.specs.primary_rows.Order.{primary_of};
    ghost use Rattle.records_tables.specs.Keyed.{KeyReading};

    ghost Value = { KeyReading };

    ghost view = { λ r. record { table = r.table.now; payload = r.payload.now; unread = r.fields; at = r.at } };

    ghost invariant = { λ r. record {
      width_is : r.width ≡ length r.table.now.columns;
      fits : r.width < 2 ^ 64;
      key_is : r.key.now ≡ primary_of r.table.now.key;
      within : All (λ place. place < r.width) r.key.now;
    } };
}

impl<'p> KeyReader<'p> {
    /// A reader of the row that these bytes of a payload are, of a table whose rows are found by a key of these columns; `None`
    /// where they are none. (Database File Format, section 2.4 "Representation Of WITHOUT ROWID Tables")
    #[inline]
    pub(crate) fn new(
        table: &'p Table,
        key: &'p [usize],
        payload: &'p [u8],
    ) -> Option<KeyReader<'p>>
        requires key { key.now ≡ primary_of table.now.key }
        requires within { All (λ place. place < length table.now.columns) key.now }
        ensures found { IfSome result (λ reader. (reader.table ≡ table.now)
            × ((row : Row) → IsPrimaryRecord table.now payload.now row → IsKeyReading reader row)) }
        ensures none { IfNone result ((row : Row) → ¬ IsPrimaryRecord table.now payload.now row) }
    {
        let fields = FieldReader::new(payload)?;
        Some(KeyReader {
            table,
            key,
            width: table.columns().len(),
            payload,
            fields,
            at: 0,
        })
    }

    /// The place of a column in the record.
    #[inline]
    fn place(&self, column: usize) -> usize
        requires { column < length self.now.table.columns }
        ensures place { result ≡ place_of (record_order self.now.table) column }
        ensures within { result < length self.now.table.columns }
    {
        record_place(self.key, self.width, column)
    }

    /// Goes back to the first field, where that at this place was passed. The answer is `false` where there is none.
    #[inline]
    fn go_back(&mut self, place: usize) -> bool
        ensures back { IsTrue result → GoesBackTo self.old self.new place }
        ensures none { IsFalse result → (row : Row) → ¬ IsKeyReading self.old row }
        ensures table { self.new.table ≡ self.old.table }
    {
        if self.at <= place {
            return true;
        }
        let Some(fields) = FieldReader::new(self.payload) else {
            return false;
        };
        self.fields = fields;
        self.at = 0;
        true
    }

    /// The field of the record at a place that wasn't passed; `None` where the record has fewer.
    #[inline]
    fn stored(&mut self, place: usize) -> Option<ValueRef<'p>>
        requires before { self.old.at ≤ place }
        requires more { place < length self.old.table.columns }
        ensures found { IfSome result (λ value. (row : Row) → (is : IsKeyReading self.old row)
            → (slice_get is.values place ≡ Some (datum_of_ref value)) × IsKeyReading self.new row) }
        ensures none { IfNone result ((row : Row) → (is : IsKeyReading self.old row)
            → (length is.values ≤ place) × IsKeyReading self.new row) }
        ensures table { self.new.table ≡ self.old.table }
    {
        let passed = self.fields.skip(place - self.at);
        self.at = place;
        if !passed {
            return None;
        }
        let value = self.fields.read()?;
        self.at = place + 1;
        Some(value)
    }

    /// The value of a column, counted from 0; a text or a blob is a slice of the payload, or of the column's DEFAULT where
    /// the row is older. `None` where the payload is no such row. Columns that are asked for in the order of the record are
    /// found in one walk along it; for one before the last the walk begins anew.
    #[inline(never)]
    pub fn value(&mut self, column: usize) -> Option<ValueRef<'p>>
        requires { column < length self.old.table.columns }
        ensures found { IfSome result (λ value. (row : Row) → IsKeyReading self.old row
            → (slice_get row column ≡ Some (datum_of_ref value)) × IsKeyReading self.new row) }
        ensures none { IfNone result ((row : Row) → ¬ IsKeyReading self.old row) }
        ensures table { self.new.table ≡ self.old.table }
    {
        let place = self.place(column);
        if !self.go_back(place) {
            return None;
        }
        if let Some(value) = self.stored(place) {
            return Some(value);
        }
        older_value(&self.table.columns()[column])
    }
}
