//! The keys of a table.
ghost use Rattle.std.specs.Prelude.{◌↔◌, ◌∷◌, [], All, IfNone, IfOk, IfSome, IsTrue, map, string_bytes};
ghost use Rattle.std.specs.List.{AllZip, Any};
ghost use Rattle.sql_reader_grammar.specs.create_trees.CreateView.{column_of};
ghost use Rattle.schema_keys.specs.declared_keys.Keys.{KeyData};
ghost use Rattle.schema_keys.specs.declared_keys.KeyView.{key_data};
ghost use Rattle.schema_keys.specs.Created.{AreColumns, AreKeys, Clash, IsPrimaryKeyWith, IsLonePrimaryKey, IsNamedIn, IsOnlyPrimary, IsRowid, IsRowidPlace, IsRowKey, column_names};
ghost use Rattle.schema_keys.specs.Names.{AreApart, IsNameAt, IsSameName};
ghost use Rattle.schema_tables.specs.RowKeyView.{row_key_of};
ghost use Rattle.schema_tables.specs.TableData.{RowKeyData};

use crate::created::is_same_name;
use crate::declared_keys::Key;
use crate::served::{are_columns, contains, is_rowless};
use crate::types::is_integer;
use schema_tables::RowKey;
use sql_reader_grammar::{Column as ColumnDefinition, TableOption};
use std::alloc::{AllocError, Global};

/// Whether these are the same names, in the same order.
fn are_same(first: &[String], second: &[String]) -> bool
    ensures { IsTrue result ↔ AllZip IsSameName (map (λ n. string_bytes n) first.now) (map (λ n. string_bytes n) second.now) }
{
    if first.len() != second.len() {
        return false;
    }
    for (place, name) in first.iter().enumerate() {
        if !is_same_name(name.as_str(), second[place].as_str()) {
            return false;
        }
    }
    true
}

/// Whether a table has one of two keys at most.
fn clash(first: &Key, second: &Key) -> bool
    ensures { IsTrue result ↔ Clash (key_data first.now) (key_data second.now) }
{
    (first.is_primary && second.is_primary)
        || are_same(first.columns.as_slice(), second.columns.as_slice())
}

/// Whether a table has a key or one of these at most.
fn clashes(before: &[Key], key: &Key) -> bool
    ensures { IsTrue result ↔ Any (λ k. Clash (key_data k) (key_data key.now)) before.now }
{
    before.iter().any(|other| clash(other, key))
}

/// Whether a table may have all of these keys.
fn are_apart(keys: &[Key]) -> bool
    ensures { IsTrue result ↔ AreApart Clash (map key_data keys.now) }
{
    for (place, key) in keys.iter().enumerate() {
        if clashes(&keys[..place], key) {
            return false;
        }
    }
    true
}

/// Whether a key is of columns of a table, each once.
fn is_of_columns(columns: &[ColumnDefinition], key: &Key) -> bool
    ensures { IsTrue result ↔ AreColumns (map column_of columns.now) (key_data key.now).columns }
{
    are_columns(columns, key.columns.as_slice())
}

/// Whether each of the keys is.
fn are_of_columns(columns: &[ColumnDefinition], keys: &[Key]) -> bool
    ensures { IsTrue result ↔ All (λ k. AreColumns (map column_of columns.now) k.columns) (map key_data keys.now) }
{
    keys.iter().all(|key| is_of_columns(columns, key))
}

/// Whether these may be the keys of a table of these columns. (CREATE TABLE, "The PRIMARY KEY", "UNIQUE constraints")
pub(crate) fn are_keys(columns: &[ColumnDefinition], keys: &[Key]) -> bool
    ensures { IsTrue result ↔ AreKeys (map column_of columns.now) (map key_data keys.now) }
{
    are_of_columns(columns, keys) && are_apart(keys)
}

/// Whether a key is PRIMARY KEY, and the column of this name is of it.
fn has_column(key: &Key, name: &str) -> bool
    ensures { IsTrue result ↔ IsPrimaryKeyWith name.now (key_data key.now) }
{
    key.is_primary && contains(key.columns.as_slice(), name)
}

/// Whether one of the columns of the PRIMARY KEY has this name.
pub(crate) fn is_in_primary(keys: &[Key], name: &str) -> bool
    ensures { IsTrue result ↔ Any (IsPrimaryKeyWith name.now) (map key_data keys.now) }
{
    keys.iter().any(|key| has_column(key, name))
}

/// Whether these names are this one alone.
fn are_one(names: &[String], name: &str) -> bool
    ensures { IsTrue result ↔ AllZip IsSameName (map (λ n. string_bytes n) names.now) (name.now ∷ []) }
{
    match names {
        [only] => is_same_name(only.as_str(), name),
        _ => false,
    }
}

/// Whether a key is PRIMARY KEY of the column of this name alone.
fn is_key_of(key: &Key, name: &str) -> bool
    ensures { IsTrue result ↔ IsLonePrimaryKey name.now (key_data key.now) }
{
    key.is_primary && are_one(key.columns.as_slice(), name)
}

/// Whether one of the keys is.
fn is_key(keys: &[Key], name: &str) -> bool
    ensures { IsTrue result ↔ Any (IsLonePrimaryKey name.now) (map key_data keys.now) }
{
    keys.iter().any(|key| is_key_of(key, name))
}

/// Whether a column is the rowid, in a table of these options and keys. (ROWIDs and the INTEGER PRIMARY KEY)
pub(crate) fn is_rowid(options: &[TableOption], keys: &[Key], column: &ColumnDefinition) -> bool
    ensures { IsTrue result ↔ IsRowid options.now (map key_data keys.now) (column_of column.now) }
{
    !is_rowless(options) && is_integer(column) && is_key(keys, column.name.as_str())
}

/// The place of the column that is the rowid, where there is one. (ROWIDs and the INTEGER PRIMARY KEY)
fn rowid_place(options: &[TableOption], keys: &[Key], columns: &[ColumnDefinition]) -> Option<usize>
    ensures { IsRowidPlace options.now (map key_data keys.now) (map column_of columns.now) result }
{
    for (place, column) in columns.iter().enumerate() {
        if is_rowid(options, keys, column) {
            return Some(place);
        }
    }
    None
}

/// The PRIMARY KEY, where it is the only key.
fn only_primary(keys: &[Key]) -> Option<&Key>
    ensures found { IfSome result (λ key. IsOnlyPrimary (map key_data keys.now) (key_data key.now)) }
    ensures none { IfNone result ((key : KeyData) → ¬ IsOnlyPrimary (map key_data keys.now) key) }
{
    match keys {
        [key] if key.is_primary => Some(key),
        _ => None,
    }
}

/// The place of the first column of this name.
fn place_of(columns: &[ColumnDefinition], name: &str) -> Option<usize>
    ensures found { IfSome result (IsNameAt (column_names (map column_of columns.now)) name.now) }
    ensures none { IfNone result (¬ IsNamedIn (map column_of columns.now) name.now) }
{
    for (place, column) in columns.iter().enumerate() {
        if is_same_name(column.name.as_str(), name) {
            return Some(place);
        }
    }
    None
}

/// The place of the column that is called so.
fn column_place(columns: &[ColumnDefinition], name: &str) -> usize
    requires { IsNamedIn (map column_of columns.now) name.now }
    ensures { IsNameAt (column_names (map column_of columns.now)) name.now result }
{
    place_of(columns, name).unwrap()
}

/// The places of the columns that are called so.
fn key_places(
    alloc: Global,
    columns: &[ColumnDefinition],
    names: &[String],
) -> Result<Vec<usize>, AllocError>
    requires { All (IsNamedIn (map column_of columns.now)) (map (λ n. string_bytes n) names.now) }
    ensures { IfOk result (λ places. AllZip (IsNameAt (column_names (map column_of columns.now)))
        (map (λ n. string_bytes n) names.now) places.items) }
{
    let mut places = Vec::with_capacity(alloc, names.len())?;
    for name in names {
        places.push(column_place(columns, name.as_str()))?;
    }
    Ok(places)
}

/// How the rows of a table of these columns are found; `None` where it has no rowids, and PRIMARY KEY isn't its only key.
pub(crate) fn row_key(
    alloc: Global,
    options: &[TableOption],
    keys: &[Key],
    columns: &[ColumnDefinition],
) -> Result<Option<RowKey>, AllocError>
    requires { AreKeys (map column_of columns.now) (map key_data keys.now) }
    ensures found { IfOk result (λ found. IfSome found (λ key. IsRowKey options.now (map key_data keys.now) (map column_of columns.now)
        (row_key_of key))) }
    ensures none { IfOk result (λ found. IfNone found ((key : RowKeyData)
        → ¬ IsRowKey options.now (map key_data keys.now) (map column_of columns.now) key)) }
{
    if !is_rowless(options) {
        return Ok(Some(RowKey::Rowid(rowid_place(options, keys, columns))));
    }
    let Some(key) = only_primary(keys) else {
        return Ok(None);
    };
    let places = key_places(alloc, columns, key.columns.as_slice())?;
    Ok(Some(RowKey::Primary(places)))
}
