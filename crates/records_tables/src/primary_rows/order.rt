//! Where a table's record has its columns.
ghost use Rattle.std.specs.Prelude.{◌≡◌, ◌≤◌, ◌↔◌, IfOk, IsTrue};
ghost use Rattle.schema_tables.specs.RowKeyView.{row_key_of};
ghost use Rattle.records_tables.specs.primary_rows.Order.{IsOrderOf, primary_of};

use crate::primary_rows::numbers::{numbers_below, places_in, put_firsts};
use schema_tables::{RowKey, Table};
use std::alloc::{AllocError, Global};

/// Where the record of a row has each column of its table, and how many values it has.
#[derive(Debug, Drop)]
pub struct RecordOrder {
    /// The values of the key, which each record has.
    pub key: usize,
    /// The most values that a record has.
    pub most: usize,
    /// The place in the record of each of the table's columns.
    pub places: Vec<usize>,
}

/// The places of the columns of a PRIMARY KEY by which rows are found.
fn primary_places(key: &RowKey) -> &[usize]
    ensures { result.now ≡ primary_of (row_key_of key.now) }
{
    match key {
        RowKey::Primary(places) => places.as_slice(),
        RowKey::Rowid(_) => &[],
    }
}

impl RecordOrder {
    /// What is told of the records of a table's rows: those of the key's columns come first, in the key's order, and then the
    /// others, in that of the table. (Database File Format, section 2.4 "Representation Of WITHOUT ROWID Tables")
    pub fn of(alloc: Global, table: &Table) -> Result<RecordOrder, AllocError>
        ensures { IfOk result (IsOrderOf table.now) }
    {
        let mut order = Vec::new(alloc);
        put_firsts(&mut order, primary_places(table.key()))?;
        let key = order.len();
        let count = table.columns().len();
        let columns = numbers_below(alloc, count)?;
        put_firsts(&mut order, columns.as_slice())?;
        let places = places_in(alloc, order.as_slice(), count)?;
        Ok(RecordOrder {
            key,
            most: order.len(),
            places,
        })
    }

    /// Whether a record may have so many values.
    pub(crate) fn allow(&self, values: usize) -> bool
        ensures { IsTrue result ↔ ((self.now.key ≤ values) × (values ≤ self.now.most)) }
    {
        self.key <= values && values <= self.most
    }
}
