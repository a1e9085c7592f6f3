//! Tables and their columns.
ghost use Rattle.std.specs.Prelude.{◌≡◌, IfOk, length, string_bytes};
ghost use Rattle.schema_tables.specs.MissingView.{missing_of};
ghost use Rattle.schema_tables.specs.RowKeyView.{row_key_of};
ghost use Rattle.schema_tables.specs.TableData.{IsKeyWithin, IsPlaceIn, nullable, rowid_of, schema_table};

use crate::{Missing, RowKey};
use std::alloc::{AllocError, Global};
use std::marker::Model;
use values::Ty;

/// A column of a table. (STRICT Tables)
#[derive(Debug, Drop)]
pub struct Column {
    name: String,
    ty: Ty,
    not_null: bool,
    missing: Missing,
}

impl Model for Column {
    ghost use Rattle.std.specs.Prelude.{string_bytes};
    ghost use Rattle.schema_tables.specs.MissingView.{missing_of};
    ghost use Rattle.schema_tables.specs.TableData.{ColumnData};

    ghost Value = { ColumnData };

    ghost view = { λ c. record { name = string_bytes c.name; ty = c.ty; not_null = c.not_null; missing = missing_of c.missing } };
}

impl Column {
    /// A column of this name and type, whose values may be NULL or not, with what a row that is older than it has in it.
    pub fn new(name: String, ty: Ty, not_null: bool, missing: Missing) -> Column
        ensures { result ≡ record { name = string_bytes name; ty = ty; not_null = not_null; missing = missing_of missing } }
    {
        Column {
            name,
            ty,
            not_null,
            missing,
        }
    }

    /// A column whose values may be NULL, and which no row lacks.
    fn nullable(alloc: Global, name: &str, ty: Ty) -> Result<Column, AllocError>
        ensures { IfOk result (λ column. column ≡ nullable name.now ty) }
    {
        let name = String::from_str(alloc, name)?;
        Ok(Column {
            name,
            ty,
            not_null: false,
            missing: Missing::Refused,
        })
    }

    /// The name, as it was declared.
    pub fn name(&self) -> &str
        ensures { result.now ≡ self.now.name }
    {
        self.name.as_str()
    }

    /// The type of the column's values.
    pub fn ty(&self) -> Ty
        ensures { result ≡ self.now.ty }
    {
        self.ty
    }

    /// Whether no value of the column may be NULL.
    pub fn is_not_null(&self) -> bool
        ensures { result ≡ self.now.not_null }
    {
        self.not_null
    }

    /// What a row that is older than the column has in it. (ALTER TABLE ADD COLUMN)
    pub fn missing(&self) -> &Missing
        ensures { missing_of result.now ≡ self.now.missing }
    {
        &self.missing
    }
}

/// A table of the image. (CREATE TABLE)
#[derive(Debug, Drop)]
pub struct Table {
    name: String,
    root: u32,
    columns: Vec<Column>,
    key: RowKey,
}

impl Model for Table {
    ghost use Rattle.std.specs.Prelude.{length, map, string_bytes};
    ghost use Rattle.schema_tables.specs.RowKeyView.{row_key_of};
    ghost use Rattle.schema_tables.specs.TableData.{IsKeyWithin, TableData};

    ghost Value = { TableData };

    ghost view = { λ t. record { name = string_bytes t.name; root = t.root; columns = t.columns.items; key = row_key_of t.key } };

    ghost invariant = { λ t. IsKeyWithin (row_key_of t.key) (length t.columns.items) };
}

impl Table {
    /// A table of this name, with the page at the root of its tree, its columns, and how its rows are found.
    pub fn new(name: String, root: u32, columns: Vec<Column>, key: RowKey) -> Table
        requires { IsKeyWithin (row_key_of key) (length columns.items) }
        ensures { result ≡ record { name = string_bytes name; root = root; columns = columns.items; key = row_key_of key } }
    {
        Table {
            name,
            root,
            columns,
            key,
        }
    }

    /// The table in which each object of the schema has a row. (The Schema Table)
    pub fn schema(alloc: Global) -> Result<Table, AllocError>
        ensures { IfOk result (λ table. table ≡ schema_table) }
    {
        let kind = Column::nullable(alloc, "type", Ty::Text)?;
        let object = Column::nullable(alloc, "name", Ty::Text)?;
        let owner = Column::nullable(alloc, "tbl_name", Ty::Text)?;
        let root = Column::nullable(alloc, "rootpage", Ty::Int)?;
        let sql = Column::nullable(alloc, "sql", Ty::Text)?;
        let columns = Vec::from_array(alloc, [kind, object, owner, root, sql])?;
        let name = String::from_str(alloc, "sqlite_schema")?;
        Ok(Table {
            name,
            root: 1,
            columns,
            key: RowKey::Rowid(None),
        })
    }

    /// The name, as it was declared.
    pub fn name(&self) -> &str
        ensures { result.now ≡ self.now.name }
    {
        self.name.as_str()
    }

    /// The page at the root of the table's tree.
    pub fn root(&self) -> u32
        ensures { result ≡ self.now.root }
    {
        self.root
    }

    /// The columns, in the order in which they were declared.
    pub fn columns(&self) -> &[Column]
        ensures { result.now ≡ self.now.columns }
    {
        self.columns.as_slice()
    }

    /// The place of the column that is the rowid, where there is one. (ROWIDs and the INTEGER PRIMARY KEY)
    pub fn rowid(&self) -> Option<usize>
        ensures same { result ≡ rowid_of self.now.key }
        ensures within { IsPlaceIn result (length self.now.columns) }
    {
        match &self.key {
            RowKey::Rowid(place) => *place,
            RowKey::Primary(_) => None,
        }
    }

    /// How the rows are found in the table's tree.
    pub fn key(&self) -> &RowKey
        ensures same { row_key_of result.now ≡ self.now.key }
        ensures within { IsKeyWithin (row_key_of result.now) (length self.now.columns) }
    {
        &self.key
    }
}
