//! The rows of the schema.
ghost use Rattle.std.specs.Prelude.{◌≡◌, ◌≤◌, All, IfErr, IfOk, map};
ghost use Rattle.schema.specs.indexes.IndexView.{index_data};
ghost use Rattle.schema.specs.CatalogView.{catalog_data};
ghost use Rattle.schema.specs.Keyed.{AreKeyedOf, tables_in};
ghost use Rattle.schema.specs.KeyedView.{keyed_data};
ghost use Rattle.schema.specs.Refused.{IsRefusedSchema};
ghost use Rattle.schema.specs.Says.{AreIndexesOf, Doubled, IsCatalog};

use crate::doubles::are_doubled;
use crate::index_said::index_said;
use crate::indexes::Index;
use crate::keyed::{KeyedTable, lack_row, tables_from};
use crate::table_said::table_said;
use schema_tables::Table;
use std::alloc::Global;
use values::{Fault, Row};

/// The tables that the rows say, in their order, with the indexes that their keys want.
fn tables_of(alloc: Global, rows: &[Row], pages: u32) -> Result<Vec<KeyedTable>, Fault>
    ensures said { IfOk result (λ tables. AreKeyedOf pages rows.now (map keyed_data tables.items)) }
    ensures refused { IfErr result (IsRefusedSchema pages rows.now) }
{
    let mut tables = Vec::with_capacity(alloc, rows.len())?;
    for row in rows {
        if let Some(table) = table_said(alloc, row, pages)? {
            tables.push(table)?;
        }
    }
    Ok(tables)
}

/// The indexes that the rows say, in their order, on the tables that they say.
fn indexes_of(
    alloc: Global,
    rows: &[Row],
    tables: &[KeyedTable],
    pages: u32,
) -> Result<Vec<Index>, Fault>
    requires keyed { AreKeyedOf pages rows.now (map keyed_data tables.now) }
    requires distinct { ¬ Doubled rows.now }
    ensures said { IfOk result (λ indexes. AreIndexesOf pages (tables_in (map keyed_data tables.now)) rows.now (map index_data indexes.items)) }
    ensures refused { IfErr result (IsRefusedSchema pages rows.now) }
{
    let mut indexes = Vec::with_capacity(alloc, rows.len())?;
    for row in rows {
        if let Some(index) = index_said(alloc, row, tables, pages)? {
            indexes.push(index)?;
        }
    }
    Ok(indexes)
}

/// The tables and indexes of an image.
#[derive(Drop)]
pub struct Catalog {
    tables: Vec<Table>,
    indexes: Vec<Index>,
}

impl Catalog {
    /// The catalog that the rows of the schema say, of an image of so many pages. (The Schema Table)
    ///
    /// # Errors
    ///
    /// `SchemaRow` where a row isn't as SQLite writes it, or one that an index for a key wants is lacking; `SchemaText` with
    /// the name of a table or an index whose text can't be read; `UnsupportedObject` with the name of a view, or of a table or
    /// an index that can be read and has what is left out; `NoMemory`.
    pub fn read(alloc: Global, rows: &[Row], pages: u32) -> Result<Catalog, Fault>
        ensures said { IfOk result (λ catalog. IsCatalog pages rows.now (catalog_data catalog)) }
        ensures roots { IfOk result (λ catalog. All (λ t. (2 ≤ t.root) × (t.root ≤ pages)) (catalog_data catalog).tables) }
        ensures refused { IfErr result (IsRefusedSchema pages rows.now) }
    {
        let keyed = tables_of(alloc, rows, pages)?;
        if are_doubled(rows) {
            return Err(Fault::SchemaRow);
        }
        let indexes = indexes_of(alloc, rows, keyed.as_slice(), pages)?;
        if lack_row(rows, keyed.as_slice()) {
            return Err(Fault::SchemaRow);
        }
        let tables = tables_from(alloc, keyed)?;
        Ok(Catalog { tables, indexes })
    }

    /// The tables, in the order of the schema's rows.
    pub fn tables(&self) -> &[Table]
        ensures { result.now ≡ (catalog_data self.now).tables }
    {
        self.tables.as_slice()
    }

    /// The indexes, in the order of the schema's rows.
    pub fn indexes(&self) -> &[Index]
        ensures { map index_data result.now ≡ (catalog_data self.now).indexes }
    {
        self.indexes.as_slice()
    }
}
