//! The indexes that SQLite makes for the keys of tables.
ghost use Rattle.std.specs.Prelude.{◌≡◌, All, IfOk, map, string_bytes};
ghost use Rattle.std.specs.List.{AllZip};
ghost use Rattle.schema.specs.indexes.IndexView.{index_data};
ghost use Rattle.schema.specs.indexes.KeyIndexes as spec;
ghost use Rattle.schema.specs.indexes.KeyIndexes.{HasColumn, IsKeyColumn, IsKeyIndex, rooted};
ghost use Rattle.schema.specs.indexes.KeyIndexView.{key_index_data};
ghost use Rattle.schema_keys.specs.table_keys.AutomaticView.{automatic_data};

use crate::indexes::others::others_of;
use crate::indexes::places::place_of;
use crate::indexes::{Index, IndexedColumn};
use schema_keys::AutomaticIndex;
use schema_tables::{Column, Table};
use sql_reader_grammar::KeyOrder;
use std::alloc::{AllocError, Global};

/// The name of the index of this number of a table. (Database File Format, 2.6.1)
fn automatic_name(alloc: Global, table: &str, number: usize) -> Result<String, AllocError>
    ensures { IfOk result (λ name. string_bytes name ≡ spec.automatic_name table.now number) }
{
    format!(in alloc; "sqlite_autoindex_{table}_{number}")
}

/// The column of a key that is called so, over a table of these columns.
fn key_column(columns: &[Column], name: &str) -> IndexedColumn
    requires { HasColumn columns.now name.now }
    ensures { IsKeyColumn columns.now name.now result }
{
    let place = place_of(columns, name).unwrap();
    IndexedColumn {
        place,
        order: KeyOrder::Ascending,
    }
}

/// The columns of a key that are called so.
fn key_columns(
    alloc: Global,
    columns: &[Column],
    names: &[String],
) -> Result<Vec<IndexedColumn>, AllocError>
    requires { All (HasColumn columns.now) (map (λ n. string_bytes n) names.now) }
    ensures { IfOk result (λ all. AllZip (IsKeyColumn columns.now) (map (λ n. string_bytes n) names.now) all.items) }
{
    let mut all = Vec::with_capacity(alloc, names.len())?;
    for name in names {
        all.push(key_column(columns, name.as_str()))?;
    }
    Ok(all)
}

/// The same columns again.
fn copied(alloc: Global, columns: &[IndexedColumn]) -> Result<Vec<IndexedColumn>, AllocError>
    ensures { IfOk result (λ all. all.items ≡ columns.now) }
{
    let mut all = Vec::with_capacity(alloc, columns.len())?;
    for column in columns {
        all.push(IndexedColumn {
            place: column.place,
            order: column.order,
        })?;
    }
    Ok(all)
}

/// An index that SQLite makes for a key of a table, before the root of its tree is known. (CREATE TABLE, "UNIQUE
/// constraints")
#[derive(Drop)]
pub struct KeyIndex {
    name: String,
    columns: Vec<IndexedColumn>,
    others: Vec<usize>,
}

impl KeyIndex {
    /// The index for a key of this table, whose columns it names.
    pub fn new(
        alloc: Global,
        table: &Table,
        automatic: &AutomaticIndex<'_>,
    ) -> Result<KeyIndex, AllocError>
        requires { All (HasColumn table.now.columns) (automatic_data automatic.now).columns }
        ensures { IfOk result (λ index. IsKeyIndex table.now (automatic_data automatic.now) (key_index_data index)) }
    {
        let name = automatic_name(alloc, table.name(), automatic.number)?;
        let columns = key_columns(alloc, table.columns(), automatic.key.columns.as_slice())?;
        let others = others_of(alloc, table, columns.as_slice())?;
        Ok(KeyIndex {
            name,
            columns,
            others,
        })
    }

    /// The name, which SQLite gives.
    pub fn name(&self) -> &str
        ensures { result.now ≡ (key_index_data self.now).name }
    {
        self.name.as_str()
    }

    /// The index, whose tree has this root, on the table of this name.
    pub fn rooted(&self, alloc: Global, table: &str, root: u32) -> Result<Index, AllocError>
        ensures { IfOk result (λ index. index_data index ≡ rooted (key_index_data self.now) table.now root) }
    {
        let name = self.name.clone()?;
        let table = String::from_str(alloc, table)?;
        let columns = copied(alloc, self.columns.as_slice())?;
        let others = Vec::from_slice(alloc, self.others.as_slice())?;
        Ok(Index {
            name,
            table,
            root,
            columns,
            others,
            is_unique: true,
            condition: None,
        })
    }
}
