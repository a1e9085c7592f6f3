//! The types of columns.
ghost use Rattle.std.specs.Prelude.{◌↔◌, IfNone, IfSome, IsTrue};
ghost use Rattle.sql_reader_grammar.specs.create_trees.CreateView as view;
ghost use Rattle.schema_keys.specs.Types.{IsInteger, IsType, IsWord};

use crate::created::is_same_name;
use sql_reader_grammar::{Column as ColumnDefinition, ColumnType};
use values::Ty;

/// Whether a type is this word alone.
fn is_only(ty: &ColumnType, word: &str) -> bool
    ensures { IsTrue result ↔ IsWord word.now (view.type_of ty.now) }
{
    match ty.words.as_slice() {
        [only] => is_same_name(only.as_str(), word) && !ty.is_sized,
        _ => false,
    }
}

/// Whether a column is INTEGER, as the column that is the rowid has to be. (ROWIDs and the INTEGER PRIMARY KEY)
pub fn is_integer(column: &ColumnDefinition) -> bool
    ensures { IsTrue result ↔ IsInteger (view.column_of column.now).ty }
{
    is_only(&column.ty, "INTEGER")
}

/// The type of the values of a column of this type; `None` where it is none of INT, INTEGER, TEXT and BLOB. (STRICT
/// Tables)
pub(crate) fn type_of(ty: &ColumnType) -> Option<Ty>
    ensures found { IfSome result (IsType (view.type_of ty.now)) }
    ensures none { IfNone result ((values : Ty) → ¬ IsType (view.type_of ty.now) values) }
{
    if is_only(ty, "INT") || is_only(ty, "INTEGER") {
        Some(Ty::Int)
    } else if is_only(ty, "TEXT") {
        Some(Ty::Text)
    } else if is_only(ty, "BLOB") {
        Some(Ty::Blob)
    } else {
        None
    }
}
