//! The keys of a CREATE TABLE.
ghost use Rattle.std.specs.Prelude.{◌≡◌, ◌∷◌, ◌++◌, [], true, false, All, Contains, IfNone, IfOk, IfSome, OnOk, map};
ghost use Rattle.sql_reader_grammar.specs.create_trees.CreateView.{column_of, constraint_of, indexed_of, table_constraint_of, table_of};
ghost use Rattle.schema_keys.specs.declared_keys.Keys as spec;
ghost use Rattle.schema_keys.specs.declared_keys.Keys.{names_of};
ghost use Rattle.schema_keys.specs.declared_keys.KeyView.{key_data};

use sql_reader_grammar::{Column, ColumnConstraint, CreateTable, IndexedColumn, TableConstraint};
use std::alloc::{AllocError, Global};

/// A key of a table. (CREATE TABLE, "The PRIMARY KEY", "UNIQUE constraints")
#[derive(Debug, Drop)]
pub struct Key {
    /// Whether it is PRIMARY KEY, and not UNIQUE.
    pub is_primary: bool,
    /// The names of its columns, in the key's order.
    pub columns: Vec<String>,
}

/// A key of one column.
fn single(alloc: Global, is_primary: bool, name: &str) -> Result<Key, AllocError>
    ensures { IfOk result (λ key. key_data key ≡ record { is_primary = is_primary; columns = name.now ∷ [] }) }
{
    let mut columns = Vec::new(alloc);
    columns.push(String::from_str(alloc, name)?)?;
    Ok(Key {
        is_primary,
        columns,
    })
}

/// A key of these columns.
fn of_columns(alloc: Global, is_primary: bool, columns: &[IndexedColumn]) -> Result<Key, AllocError>
    ensures { IfOk result (λ key. key_data key
        ≡ record { is_primary = is_primary; columns = names_of (map indexed_of columns.now) }) }
{
    let mut names = Vec::new(alloc);
    for column in columns {
        names.push(column.name.clone()?)?;
    }
    Ok(Key {
        is_primary,
        columns: names,
    })
}

/// Puts the keys that stand at a column at the end of a list.
fn keys_at(
    alloc: Global,
    name: &str,
    constraints: &[ColumnConstraint],
    keys: &mut Vec<Key>,
) -> Result<(), AllocError>
    ensures { OnOk result (map key_data keys.new.items
        ≡ map key_data keys.old.items ++ spec.keys_at name.now (map constraint_of constraints.now)) }
{
    for constraint in constraints {
        match constraint {
            ColumnConstraint::PrimaryKey(_, _) => keys.push(single(alloc, true, name)?)?,
            ColumnConstraint::Unique => keys.push(single(alloc, false, name)?)?,
            _ => {}
        }
    }
    Ok(())
}

/// Puts the keys that stand at columns at the end of a list.
fn keys_of_columns(alloc: Global, columns: &[Column], keys: &mut Vec<Key>) -> Result<(), AllocError>
    ensures { OnOk result (map key_data keys.new.items
        ≡ map key_data keys.old.items ++ spec.keys_of_columns (map column_of columns.now)) }
{
    for column in columns {
        keys_at(
            alloc,
            column.name.as_str(),
            column.constraints.as_slice(),
            keys,
        )?;
    }
    Ok(())
}

/// Puts the keys that stand behind the columns at the end of a list.
fn keys_behind(
    alloc: Global,
    constraints: &[TableConstraint],
    keys: &mut Vec<Key>,
) -> Result<(), AllocError>
    ensures { OnOk result (map key_data keys.new.items
        ≡ map key_data keys.old.items ++ spec.keys_behind (map table_constraint_of constraints.now)) }
{
    for constraint in constraints {
        match constraint {
            TableConstraint::PrimaryKey(columns) => {
                keys.push(of_columns(alloc, true, columns.as_slice())?)?;
            }
            TableConstraint::Unique(columns) => {
                keys.push(of_columns(alloc, false, columns.as_slice())?)?;
            }
            TableConstraint::Check | TableConstraint::ForeignKey(_) => {}
        }
    }
    Ok(())
}

/// The keys of a table, as they are written one after the other.
pub fn keys_of(alloc: Global, created: &CreateTable) -> Result<Vec<Key>, AllocError>
    ensures { IfOk result (λ keys. map key_data keys.items ≡ spec.keys_of (table_of created.now)) }
{
    let mut keys = Vec::new(alloc);
    keys_of_columns(alloc, created.columns.as_slice(), &mut keys)?;
    keys_behind(alloc, created.constraints.as_slice(), &mut keys)?;
    Ok(keys)
}

/// The PRIMARY KEY among these keys.
pub fn primary_key(keys: &[Key]) -> Option<&Key>
    ensures found { IfSome result (λ key. Contains keys.now key.now × (key.now.is_primary ≡ true)) }
    ensures none { IfNone result (All (λ key. key.is_primary ≡ false) keys.now) }
{
    for key in keys {
        if key.is_primary {
            return Some(key);
        }
    }
    None
}
