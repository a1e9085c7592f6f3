//! What follows from the definitions alone.
ghost use Rattle.std.specs.Prelude.{◌≡◌, ◌<◌, ℕ, List, Some, length, map, slice_get, slice_index_or, take};
ghost use Rattle.values.specs.Datum.{Datum, null};
ghost use Rattle.values.specs.Row.{Row};
ghost use Rattle.schema_tables.specs.TableData.{IsKeyWithin, TableData};
ghost use Rattle.records_tables.specs.primary_rows.Order.{key_order, record_order};
ghost use Rattle.records_tables.specs.primary_rows.Rows.{IsPrimaryRow};

/// A row has each value of its record in the column that has this place of the record, and the record begins with the values of
/// the key's columns, in the key's order. (Database File Format, section 2.4 "Representation Of WITHOUT ROWID Tables")
pub fn row_has_record_values()
    ensures values { (table : TableData) (values : List Datum) (row : Row) → IsPrimaryRow table values row → (p c : ℕ) (value : Datum)
        → slice_get (record_order table) p ≡ Some c → c < length table.columns → slice_get values p ≡ Some value → slice_get row c ≡ Some value }
    ensures key { (table : TableData) (values : List Datum) (row : Row) → IsKeyWithin table.key (length table.columns) → IsPrimaryRow table values row
        → map (λ c. slice_index_or row c null) (key_order table) ≡ take (length (key_order table)) values }
{}
