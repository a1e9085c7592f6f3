//! Which columns of a table are named.
ghost use Rattle.std.specs.Prelude.{◌≡◌, ◌↔◌, ℕ, IfNone, IfSome, IsTrue, map};
ghost use Rattle.std.specs.List.{Any};
ghost use Rattle.sql_reader_grammar.specs.create_trees.CreateView.{indexed_of};
ghost use Rattle.schema.specs.indexes.Condition.{place_from};
ghost use Rattle.schema.specs.indexes.IndexData.{IndexedData};
ghost use Rattle.schema.specs.indexes.Indexed.{IsIndexed};
ghost use Rattle.schema_keys.specs.Names.{AreDistinct, IsNameAt, IsSameName};

use crate::indexes::IndexedColumn;
use schema_keys::{is_binary, is_same_name};
use schema_tables::Column;
use sql_reader_grammar::IndexedColumn as NamedColumn;

/// Whether one of the columns is named so.
fn is_named(columns: &[NamedColumn], name: &str) -> bool
    ensures { IsTrue result ↔ Any (λ c. IsSameName (indexed_of c).name name.now) columns.now }
{
    columns
        .iter()
        .any(|column| is_same_name(column.name.as_str(), name))
}

/// Whether no column is named twice.
pub(crate) fn are_distinct(columns: &[NamedColumn]) -> bool
    ensures { IsTrue result ↔ AreDistinct (map (λ c. (indexed_of c).name) columns.now) }
{
    for (place, column) in columns.iter().enumerate() {
        if is_named(&columns[..place], column.name.as_str()) {
            return false;
        }
    }
    true
}

/// The place of the first column of this name.
pub(crate) fn place_of(columns: &[Column], name: &str) -> Option<usize>
    ensures found { IfSome result (IsNameAt (map (λ c. c.name) columns.now) name.now) }
    ensures none { IfNone result ((place : ℕ) → ¬ IsNameAt (map (λ c. c.name) columns.now) name.now place) }
    ensures first { result ≡ place_from 0 columns.now name.now }
{
    for (place, column) in columns.iter().enumerate() {
        if is_same_name(column.name(), name) {
            return Some(place);
        }
    }
    None
}

/// The column of an index that is named, over a table of these columns; `None` where none of them is called so, or where
/// it has a collation other than BINARY.
pub(crate) fn indexed(columns: &[Column], named: &NamedColumn) -> Option<IndexedColumn>
    ensures found { IfSome result (IsIndexed columns.now (indexed_of named.now)) }
    ensures none { IfNone result ((column : IndexedData) → ¬ IsIndexed columns.now (indexed_of named.now) column) }
{
    if !is_binary(&named.collation) {
        return None;
    }
    let place = place_of(columns, named.name.as_str())?;
    Some(IndexedColumn {
        place,
        order: named.order,
    })
}
