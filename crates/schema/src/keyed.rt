//! Tables, with the indexes that their keys require.
ghost use Rattle.std.specs.Prelude.{◌≡◌, ◌↔◌, All, Contains, IfNone, IfOk, IfSome, IsTrue, MatchBool, map};
ghost use Rattle.std.specs.List.{AllZip, Any};
ghost use Rattle.schema.specs.indexes.KeyIndexes.{HasColumn, IsKeyIndex};
ghost use Rattle.schema.specs.indexes.KeyIndexView.{key_index_data};
ghost use Rattle.schema_keys.specs.Names.{IsSameName};
ghost use Rattle.schema_keys.specs.table_keys.AutomaticView.{automatic_data};
ghost use Rattle.schema.specs.Keyed.{HasKeyRows, LacksRow};
ghost use Rattle.schema.specs.KeyedView.{keyed_data};
ghost use Rattle.schema.specs.Wanted.{HasKeyRow, IsKeyRow};

use crate::indexes::KeyIndex;
use crate::objects::{Kind, object_of};
use schema_keys::{AutomaticIndex, is_same_name};
use schema_tables::Table;
use std::alloc::{AllocError, Global};
use values::Row;

/// A table of the image, with the indexes that its keys want.
#[derive(Drop)]
pub(crate) struct KeyedTable {
    pub(crate) table: Table,
    pub(crate) wanted: Vec<KeyIndex>,
}

/// The indexes for keys of a table, whose columns they name.
pub(crate) fn key_indexes(
    alloc: Global,
    table: &Table,
    automatic: &[AutomaticIndex<'_>],
) -> Result<Vec<KeyIndex>, AllocError>
    requires { All (λ a. All (HasColumn table.now.columns) a.columns) (map automatic_data automatic.now) }
    ensures { IfOk result (λ all. AllZip (IsKeyIndex table.now) (map automatic_data automatic.now) (map key_index_data all.items)) }
{
    let mut all = Vec::with_capacity(alloc, automatic.len())?;
    for index in automatic {
        all.push(KeyIndex::new(alloc, table, index)?)?;
    }
    Ok(all)
}

/// The index of this name that a key wants.
pub(crate) fn wanted_of<'k>(wanted: &'k [KeyIndex], name: &str) -> Option<&'k KeyIndex>
    ensures found { IfSome result (λ index. Contains (map key_index_data wanted.now) (key_index_data index.now)
        × IsSameName name.now (key_index_data index.now).name) }
    ensures none { IfNone result (All (λ w. ¬ IsSameName name.now w.name) (map key_index_data wanted.now)) }
{
    for candidate in wanted {
        if is_same_name(name, candidate.name()) {
            return Some(candidate);
        }
    }
    None
}

/// Whether a row is that of this index without a text, on the table of this name.
fn is_key_row(row: &Row, table: &str, index: &KeyIndex) -> bool
    ensures { IsTrue result ↔ IsKeyRow table.now (key_index_data index.now).name row.now }
{
    let Some(object) = object_of(row) else {
        return false;
    };
    matches!(object.kind, Kind::Index)
        && object.sql.is_none()
        && is_same_name(object.owner, table)
        && is_same_name(object.name, index.name())
}

/// Whether one of the rows is.
fn has_key_row(rows: &[Row], table: &str, index: &KeyIndex) -> bool
    ensures { IsTrue result ↔ HasKeyRow rows.now table.now (key_index_data index.now).name }
{
    rows.iter().any(|row| is_key_row(row, table, index))
}

/// Whether an index that a key of this table wants has none of the rows.
fn lacks_row(rows: &[Row], keyed: &KeyedTable) -> bool
    ensures { MatchBool result (LacksRow rows.now (keyed_data keyed.now)) (HasKeyRows rows.now (keyed_data keyed.now)) }
{
    keyed
        .wanted
        .iter()
        .any(|index| !has_key_row(rows, keyed.table.name(), index))
}

/// Whether one that a key of one of these tables wants has none.
pub(crate) fn lack_row(rows: &[Row], tables: &[KeyedTable]) -> bool
    ensures { MatchBool result (Any (LacksRow rows.now) (map keyed_data tables.now)) (All (HasKeyRows rows.now) (map keyed_data tables.now)) }
{
    tables.iter().any(|keyed| lacks_row(rows, keyed))
}

/// The tables alone.
pub(crate) fn tables_from(alloc: Global, keyed: Vec<KeyedTable>) -> Result<Vec<Table>, AllocError>
    ensures { IfOk result (λ tables. tables.items ≡ map (λ k. (keyed_data k).table) keyed.items) }
{
    let mut tables = Vec::with_capacity(alloc, keyed.len())?;
    for keyed_table in keyed {
        let KeyedTable { table, wanted: _ } = keyed_table;
        tables.push(table)?;
    }
    Ok(tables)
}
