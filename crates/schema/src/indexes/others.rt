//! The columns of the PRIMARY KEY that an index lacks, by which its entries name their rows.
ghost use Rattle.std.specs.Prelude.{◌≡◌, IfOk};
ghost use Rattle.schema.specs.indexes.Others as spec;
ghost use Rattle.schema.specs.indexes.Others.{has_place};

use crate::indexes::IndexedColumn;
use schema_tables::{RowKey, Table};
use std::alloc::{AllocError, Global};

/// Whether one of the columns stands at this place of the table.
fn has_column_at(columns: &[IndexedColumn], place: usize) -> bool
    ensures { result ≡ has_place columns.now place }
{
    columns.iter().any(|column| column.place == place)
}

/// The places of the columns of the PRIMARY KEY that an index of these columns lacks, in the key's order, where the table's rows
/// are found by it. (Database File Format, "Suppression of redundant columns in WITHOUT ROWID secondary indexes")
pub(crate) fn others_of(
    alloc: Global,
    table: &Table,
    columns: &[IndexedColumn],
) -> Result<Vec<usize>, AllocError>
    ensures { IfOk result (λ others. others.items ≡ spec.others_of table.now.key columns.now) }
{
    let RowKey::Primary(places) = table.key() else {
        return Ok(Vec::new(alloc));
    };
    let mut others = Vec::new(alloc);
    for place in places {
        if !has_column_at(columns, *place) {
            others.push(*place)?;
        }
    }
    Ok(others)
}
