//! The table that a CREATE TABLE makes.
ghost use Rattle.std.specs.Prelude.{◌≡◌, ◌↔◌, All, Contains, IfNone, IfOk, IfSome, IsTrue, List, map};
ghost use Rattle.std.specs.List.{AllZip, Any};
ghost use Rattle.sql_reader_grammar.specs.create_trees.CreateTrees.{ConstraintTree};
ghost use Rattle.sql_reader_grammar.specs.create_trees.CreateView.{column_of, constraint_of, table_of};
ghost use Rattle.schema_keys.specs.declared_keys.KeyView.{key_data};
ghost use Rattle.schema_keys.specs.Created as spec;
ghost use Rattle.schema_keys.specs.Created.{IsColumn, IsNotNull, IsServedConstraint, IsTable};
ghost use Rattle.schema_keys.specs.Names.{AreDistinct, IsReservedName, IsSameName};
ghost use Rattle.schema_tables.specs.TableData.{ColumnData, TableData};

use crate::declared_keys::{Key, keys_of};
use crate::keys::{are_keys, is_in_primary, is_rowid, row_key};
use crate::missing::missing_by;
use crate::served::{are_options, constraints_are_served};
use crate::types::type_of;
use schema_tables::{Column, Table};
use sql_reader_grammar::{
    Column as ColumnDefinition, ColumnConstraint, CreateTable, KeyOrder, TableOption,
};
use std::alloc::{AllocError, Global};

/// What the name of an object begins with that only SQLite makes.
const RESERVED: &[u8] = b"sqlite_";

/// Whether a name is one that only SQLite gives.
fn is_reserved(name: &str) -> bool
    ensures { IsTrue result ↔ IsReservedName name.now }
{
    match name.as_bytes().get(..RESERVED.len()) {
        Some(front) => front.eq_ignore_ascii_case(RESERVED),
        None => false,
    }
}

/// Whether two names differ in the case of ASCII letters alone.
pub fn is_same_name(a: &str, b: &str) -> bool
    ensures { IsTrue result ↔ IsSameName a.now b.now }
{
    a.eq_ignore_ascii_case(b)
}

/// Whether one of the columns has this name.
pub(crate) fn is_named(columns: &[ColumnDefinition], name: &str) -> bool
    ensures { IsTrue result ↔ Any (λ c. IsSameName (column_of c).name name.now) columns.now }
{
    columns
        .iter()
        .any(|column| is_same_name(column.name.as_str(), name))
}

/// Whether no two columns have one name.
fn are_distinct(columns: &[ColumnDefinition]) -> bool
    ensures { IsTrue result ↔ AreDistinct (map (λ c. (column_of c).name) columns.now) }
{
    for (place, column) in columns.iter().enumerate() {
        if is_named(&columns[..place], column.name.as_str()) {
            return false;
        }
    }
    true
}

/// Whether a constraint has no order but that of values. (CREATE TABLE)
fn is_served(constraint: &ColumnConstraint) -> bool
    ensures { IsTrue result ↔ IsServedConstraint (constraint_of constraint.now) }
{
    match constraint {
        ColumnConstraint::PrimaryKey(order, automatic) => {
            *order == KeyOrder::Ascending && !*automatic
        }
        ColumnConstraint::Collate(name) => is_same_name(name.as_str(), "BINARY"),
        ColumnConstraint::NotNull
        | ColumnConstraint::Unique
        | ColumnConstraint::Check
        | ColumnConstraint::Default(_)
        | ColumnConstraint::References => true,
    }
}

/// Whether each of these constraints does.
fn are_served(constraints: &[ColumnConstraint]) -> bool
    ensures { IsTrue result ↔ All (λ c. IsServedConstraint (constraint_of c)) constraints.now }
{
    constraints.iter().all(|constraint| is_served(constraint))
}

/// Whether each constraint of these columns does.
fn columns_are_served(columns: &[ColumnDefinition]) -> bool
    ensures { IsTrue result ↔ All (λ c. All (λ x. IsServedConstraint (constraint_of x)) c.constraints.items) columns.now }
{
    columns
        .iter()
        .all(|column| are_served(column.constraints.as_slice()))
}

/// Whether a constraint is NOT NULL.
fn demands_value(constraint: &ColumnConstraint) -> bool
    ensures { result ≡ spec.is_not_null (constraint_of constraint.now) }
{
    matches!(constraint, ColumnConstraint::NotNull)
}

/// Whether NOT NULL is one of a column's constraints.
fn is_declared_not_null(column: &ColumnDefinition) -> bool
    ensures { IsTrue result ↔ Contains (column_of column.now).constraints ConstraintTree.NotNull }
{
    column
        .constraints
        .iter()
        .any(|constraint| demands_value(constraint))
}

/// Whether no value of a column may be NULL, in a table of these options and keys. (STRICT Tables; WITHOUT ROWID Tables)
fn is_not_null(options: &[TableOption], keys: &[Key], column: &ColumnDefinition) -> bool
    ensures { IsTrue result ↔ IsNotNull options.now (map key_data keys.now) (column_of column.now) }
{
    is_declared_not_null(column)
        || (is_in_primary(keys, column.name.as_str()) && !is_rowid(options, keys, column))
}

/// The column that a definition declares, in a table of these options and keys; `None` where its type isn't served. (STRICT
/// Tables)
fn column_from(
    options: &[TableOption],
    keys: &[Key],
    definition: ColumnDefinition,
) -> Option<Column>
    ensures found { IfSome result (IsColumn options.now (map key_data keys.now) (column_of definition)) }
    ensures none { IfNone result ((column : ColumnData)
        → ¬ IsColumn options.now (map key_data keys.now) (column_of definition) column) }
{
    let not_null = is_not_null(options, keys, &definition);
    let ColumnDefinition {
        name,
        ty,
        constraints,
    } = definition;
    let ty = type_of(&ty)?;
    let missing = missing_by(constraints);
    Some(Column::new(name, ty, not_null, missing))
}

/// The columns that the definitions declare, in a table of these options and keys; `None` where a type isn't served. (STRICT
/// Tables)
fn columns_from(
    alloc: Global,
    options: &[TableOption],
    keys: &[Key],
    definitions: Vec<ColumnDefinition>,
) -> Result<Option<Vec<Column>>, AllocError>
    ensures made { IfOk result (λ made. IfSome made (λ columns. AllZip (IsColumn options.now (map key_data keys.now))
        (map column_of definitions.items) columns.items)) }
    ensures none { IfOk result (λ made. IfNone made ((columns : List ColumnData)
        → ¬ AllZip (IsColumn options.now (map key_data keys.now)) (map column_of definitions.items) columns)) }
{
    let mut columns = Vec::with_capacity(alloc, definitions.len())?;
    for definition in definitions {
        let Some(column) = column_from(options, keys, definition) else {
            return Ok(None);
        };
        columns.push(column)?;
    }
    Ok(Some(columns))
}

/// The table that a CREATE TABLE makes, whose tree has this root; `None` where it makes none: its name is reserved, two columns have
/// one name, a type, a constraint or an option isn't served, its keys aren't of its columns, or are two where there may be one, or it
/// has no rowids, and PRIMARY KEY isn't its only key. (CREATE TABLE)
pub fn table_from(
    alloc: Global,
    created: CreateTable,
    root: u32,
) -> Result<Option<Table>, AllocError>
    ensures made { IfOk result (λ made. IfSome made (IsTable (table_of created))) }
    ensures root { IfOk result (λ made. IfSome made (λ table. table.root ≡ root)) }
    ensures none { IfOk result (λ made. IfNone made ((table : TableData) → ¬ IsTable (table_of created) table)) }
{
    let keys = keys_of(alloc, &created)?;
    let CreateTable {
        name,
        columns,
        constraints,
        options,
    } = created;
    if is_reserved(name.as_str()) || !are_distinct(columns.as_slice()) {
        return Ok(None);
    }
    if !columns_are_served(columns.as_slice()) || !are_keys(columns.as_slice(), keys.as_slice()) {
        return Ok(None);
    }
    if !are_options(options.as_slice())
        || !constraints_are_served(columns.as_slice(), constraints.as_slice())
    {
        return Ok(None);
    }
    let (options, keys) = (options.as_slice(), keys.as_slice());
    let Some(key) = row_key(alloc, options, keys, columns.as_slice())? else {
        return Ok(None);
    };
    let Some(columns) = columns_from(alloc, options, keys, columns)? else {
        return Ok(None);
    };
    Ok(Some(Table::new(name, root, columns, key)))
}
