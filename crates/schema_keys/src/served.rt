//! Which constraints and options of a table are served.
ghost use Rattle.std.specs.Prelude.{◌↔◌, All, IsTrue, map, option_map, string_bytes};
ghost use Rattle.std.specs.List.{Any};
ghost use Rattle.sql_reader_grammar.specs.create_trees.CreateView.{column_of, indexed_of, table_constraint_of};
ghost use Rattle.schema_keys.specs.Created.{AreColumns, AreOptions, IsBinary, IsNamedIn, IsPlainKeyColumn, IsRowless, IsServedIn};
ghost use Rattle.schema_keys.specs.Names.{AreDistinct, IsSameName};

use crate::created::{is_named, is_same_name};
use sql_reader_grammar::{
    Column as ColumnDefinition, IndexedColumn, KeyOrder, TableConstraint, TableOption,
};

/// Whether STRICT stands behind the columns, alone or beside WITHOUT ROWID. (STRICT Tables; WITHOUT ROWID Tables)
pub(crate) fn are_options(options: &[TableOption]) -> bool
    ensures { IsTrue result ↔ AreOptions options.now }
{
    matches!(
        options,
        [TableOption::Strict]
            | [TableOption::Strict, TableOption::WithoutRowid]
            | [TableOption::WithoutRowid, TableOption::Strict]
    )
}

/// Whether a table of these options has no rowids. (WITHOUT ROWID Tables)
pub fn is_rowless(options: &[TableOption]) -> bool
    ensures { IsTrue result ↔ IsRowless options.now }
{
    options
        .iter()
        .any(|option| matches!(option, TableOption::WithoutRowid))
}

/// Whether one of the names is this one.
pub(crate) fn contains(names: &[String], name: &str) -> bool
    ensures { IsTrue result ↔ Any (λ n. IsSameName (string_bytes n) name.now) names.now }
{
    names.iter().any(|other| is_same_name(other.as_str(), name))
}

/// Whether no two of the names are the same.
fn are_different(names: &[String]) -> bool
    ensures { IsTrue result ↔ AreDistinct (map (λ n. string_bytes n) names.now) }
{
    for (place, name) in names.iter().enumerate() {
        if contains(&names[..place], name.as_str()) {
            return false;
        }
    }
    true
}

/// Whether this is the name of a column.
fn is_column(columns: &[ColumnDefinition], name: &str) -> bool
    ensures { IsTrue result ↔ IsNamedIn (map column_of columns.now) name.now }
{
    is_named(columns, name)
}

/// Whether each of the names is that of a column.
fn are_named(columns: &[ColumnDefinition], names: &[String]) -> bool
    ensures { IsTrue result ↔ All (λ n. IsNamedIn (map column_of columns.now) (string_bytes n)) names.now }
{
    names.iter().all(|name| is_column(columns, name.as_str()))
}

/// Whether these are columns of a table, each once.
pub(crate) fn are_columns(columns: &[ColumnDefinition], names: &[String]) -> bool
    ensures { IsTrue result ↔ AreColumns (map column_of columns.now) (map (λ n. string_bytes n) names.now) }
{
    are_named(columns, names) && are_different(names)
}

/// Whether no collation is written, or BINARY.
pub fn is_binary(collation: &Option<String>) -> bool
    ensures { IsTrue result ↔ IsBinary (option_map (λ n. string_bytes n) collation.now) }
{
    match collation {
        Some(name) => is_same_name(name.as_str(), "BINARY"),
        None => true,
    }
}

/// Whether a column of a key is in the order of its values.
fn is_plain(column: &IndexedColumn) -> bool
    ensures { IsTrue result ↔ IsPlainKeyColumn (indexed_of column.now) }
{
    is_binary(&column.collation) && column.order == KeyOrder::Ascending
}

/// Whether each of these columns is.
fn are_plain(key: &[IndexedColumn]) -> bool
    ensures { IsTrue result ↔ All IsPlainKeyColumn (map indexed_of key.now) }
{
    key.iter().all(|column| is_plain(column))
}

/// Whether a constraint of a table has no order but that of values, and names columns of the table. (CREATE TABLE)
fn is_served_in(columns: &[ColumnDefinition], constraint: &TableConstraint) -> bool
    ensures { IsTrue result ↔ IsServedIn (map column_of columns.now) (table_constraint_of constraint.now) }
{
    match constraint {
        TableConstraint::PrimaryKey(key) => are_plain(key.as_slice()),
        TableConstraint::Unique(key) => are_plain(key.as_slice()),
        TableConstraint::Check => true,
        TableConstraint::ForeignKey(names) => are_columns(columns, names.as_slice()),
    }
}

/// Whether each of these constraints does.
pub(crate) fn constraints_are_served(
    columns: &[ColumnDefinition],
    constraints: &[TableConstraint],
) -> bool
    ensures { IsTrue result ↔ All (λ x. IsServedIn (map column_of columns.now) (table_constraint_of x)) constraints.now }
{
    constraints
        .iter()
        .all(|constraint| is_served_in(columns, constraint))
}
