//! Copies of tables and of their columns.
ghost use Rattle.std.specs.Prelude.{◌≡◌, IfOk};
ghost use Rattle.schema_tables.specs.MissingView.{missing_of};
ghost use Rattle.schema_tables.specs.RowKeyView.{row_key_of};

use crate::{Column, Missing, RowKey, Table};
use std::alloc::{AllocError, Global};

fn copy_missing(alloc: Global, missing: &Missing) -> Result<Missing, AllocError>
    ensures { IfOk result (λ copy. missing_of copy ≡ missing_of missing.now) }
{
    match missing {
        Missing::Fill(value) => Ok(Missing::Fill(value.as_ref().to_value(alloc)?)),
        Missing::Refused => Ok(Missing::Refused),
    }
}

fn copy_column(alloc: Global, column: &Column) -> Result<Column, AllocError>
    ensures { IfOk result (λ copy. copy ≡ column.now) }
{
    let name = String::from_str(alloc, column.name())?;
    let missing = copy_missing(alloc, column.missing())?;
    Ok(Column::new(name, column.ty(), column.is_not_null(), missing))
}

fn copy_columns(alloc: Global, columns: &[Column]) -> Result<Vec<Column>, AllocError>
    ensures { IfOk result (λ copies. copies.items ≡ columns.now) }
{
    let mut copies = Vec::with_capacity(alloc, columns.len())?;
    for column in columns {
        let copy = copy_column(alloc, column)?;
        copies.push(copy)?;
    }
    Ok(copies)
}

fn copy_key(alloc: Global, key: &RowKey) -> Result<RowKey, AllocError>
    ensures { IfOk result (λ copy. row_key_of copy ≡ row_key_of key.now) }
{
    match key {
        RowKey::Rowid(place) => Ok(RowKey::Rowid(*place)),
        RowKey::Primary(places) => Ok(RowKey::Primary(Vec::from_slice(alloc, places.as_slice())?)),
    }
}

/// A copy of a table. (CREATE TABLE)
pub(crate) fn copy_table(alloc: Global, table: &Table) -> Result<Table, AllocError>
    ensures { IfOk result (λ copy. copy ≡ table.now) }
{
    let name = String::from_str(alloc, table.name())?;
    let columns = copy_columns(alloc, table.columns())?;
    let key = copy_key(alloc, table.key())?;
    Ok(Table::new(name, table.root(), columns, key))
}
