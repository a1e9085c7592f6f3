//! A row of a table of either kind, of which only the values asked for are read.
ghost use Rattle.std.specs.Prelude.{◌≡◌, ◌<◌, IfNone, IfSome, Some, length, slice_get};
ghost use Rattle.values.specs.Datum.{datum_of_ref};
ghost use Rattle.values.specs.Row.{Row};
ghost use Rattle.records_tables.specs.Reading.{IsReadingRow, table_read};
ghost use Rattle.records_tables.specs.Tables.{IsAnyRecord, kind_of};

use crate::key_reader::KeyReader;
use crate::stored_rows::RowReader;
use btree::TreeKind;
use schema_tables::{RowKey, Table};
use values::ValueRef;

/// The kind of the tree that a table is stored in. (Database File Format, section 2.3 "Representation Of SQL Tables", and section
/// 2.4 "Representation Of WITHOUT ROWID Tables")
pub fn tree_kind(table: &Table) -> TreeKind
    ensures { result ≡ kind_of table.now.key }
{
    match table.key() {
        RowKey::Rowid(_) => TreeKind::Table,
        RowKey::Primary(_) => TreeKind::Index,
    }
}

/// Reads single values of a row in place, and takes no memory. It looks at no more of the record than it is asked for.
#[derive(Debug, Drop)]
pub enum ValueReader<'p> {
    /// Of a table with rowids: the record has the columns in the order of the table.
    ByRowid(RowReader<'p>),
    /// Of one without: the record has the columns of the key first.
    ByKey(KeyReader<'p>),
}

impl<'p> ValueReader<'p> {
    /// A reader of the row that these bytes of a payload are, which has this rowid where its table has rowids; `None` where they
    /// are none. (Database File Format, section 2.3 "Representation Of SQL Tables", and section 2.4 "Representation Of WITHOUT
    /// ROWID Tables")
    #[inline(always)]
    pub fn new(table: &'p Table, rowid: Option<i64>, payload: &'p [u8]) -> Option<ValueReader<'p>>
        ensures found { IfSome result (λ reader. (table_read reader ≡ table.now)
            × ((row : Row) → IsAnyRecord table.now rowid payload.now row → IsReadingRow reader row)) }
        ensures none { IfNone result ((row : Row) → ¬ IsAnyRecord table.now rowid payload.now row) }
    {
        match table.key() {
            RowKey::Rowid(_) => {
                let reader = RowReader::new(table, rowid, payload)?;
                Some(ValueReader::ByRowid(reader))
            }
            RowKey::Primary(places) => {
                let reader = KeyReader::new(table, places.as_slice(), payload)?;
                Some(ValueReader::ByKey(reader))
            }
        }
    }

    /// The value of a column, counted from 0; a text or a blob is a slice of the payload, or of the column's DEFAULT where
    /// the row is older. `None` where the payload is no such row. Columns that are asked for in the order of the record are
    /// found in one walk along it; for one before the last the walk begins anew.
    #[inline(always)]
    pub fn value(&mut self, column: usize) -> Option<ValueRef<'p>>
        requires { column < length (table_read self.old).columns }
        ensures found { IfSome result (λ value. (row : Row) → IsReadingRow self.old row
            → (slice_get row column ≡ Some (datum_of_ref value)) × IsReadingRow self.new row) }
        ensures none { IfNone result ((row : Row) → ¬ IsReadingRow self.old row) }
        ensures table { table_read self.new ≡ table_read self.old }
    {
        match self {
            ValueReader::ByRowid(reader) => reader.value(column),
            ValueReader::ByKey(reader) => reader.value(column),
        }
    }
}
