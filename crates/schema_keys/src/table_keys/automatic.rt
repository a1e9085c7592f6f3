//! The indexes that SQLite makes for keys.
ghost use Rattle.std.specs.Prelude.{◌↔◌, IfOk, IsTrue, map, string_bytes};
ghost use Rattle.sql_reader_grammar.specs.create_trees.CreateView.{column_of, table_of};
ghost use Rattle.schema_keys.specs.table_keys.Automatic.{IsIntegerIn, IsIntegerKey, IsOneInteger, IsTableKey, WantIndexes};
ghost use Rattle.schema_keys.specs.declared_keys.KeyView.{key_data};
ghost use Rattle.schema_keys.specs.table_keys.AutomaticView.{automatic_data};

use crate::declared_keys::Key;
use crate::{is_integer, is_rowless, is_same_name};
use sql_reader_grammar::{Column, CreateTable};
use std::alloc::{AllocError, Global};

/// An index that SQLite makes for a key of a table. (CREATE TABLE, "UNIQUE constraints")
#[derive(Drop)]
pub struct AutomaticIndex<'k> {
    /// The number in its name, from 1.
    pub number: usize,
    pub key: &'k Key,
}

/// Whether one of the columns is called so, and is INTEGER.
fn is_integer_in(columns: &[Column], name: &str) -> bool
    ensures { IsTrue result ↔ IsIntegerIn (map column_of columns.now) name.now }
{
    columns.iter().any(|column| is_same_name(column.name.as_str(), name) && is_integer(column))
}

/// Whether these are one name alone, that of a column that is INTEGER.
fn is_one_integer(columns: &[Column], names: &[String]) -> bool
    ensures { IsTrue result ↔ IsOneInteger (map column_of columns.now) (map (λ n. string_bytes n) names.now) }
{
    match names {
        [only] => is_integer_in(columns, only.as_str()),
        _ => false,
    }
}

/// Whether a key of this table is the PRIMARY KEY of one column that is INTEGER. (ROWIDs and the INTEGER PRIMARY KEY)
fn is_integer_key(created: &CreateTable, key: &Key) -> bool
    ensures { IsTrue result ↔ IsIntegerKey (table_of created.now) (key_data key.now) }
{
    key.is_primary && is_one_integer(created.columns.as_slice(), key.columns.as_slice())
}

/// Whether the tree of this table is by the key, which is another PRIMARY KEY. (WITHOUT ROWID Tables)
fn is_table_key(created: &CreateTable, key: &Key) -> bool
    ensures { IsTrue result ↔ IsTableKey (table_of created.now) (key_data key.now) }
{
    key.is_primary && is_rowless(created.options.as_slice()) && !is_integer_key(created, key)
}

/// The indexes that SQLite makes for these keys of a table, in their order. (CREATE TABLE, "UNIQUE constraints")
pub fn automatic_indexes<'k>(
    alloc: Global,
    created: &CreateTable,
    keys: &'k [Key],
) -> Result<Vec<AutomaticIndex<'k>>, AllocError>
    ensures { IfOk result (λ indexes. WantIndexes (table_of created.now) 1 (map key_data keys.now)
        (map automatic_data indexes.items)) }
{
    let mut indexes = Vec::new(alloc);
    let mut number = 1;
    for key in keys {
        if is_integer_key(created, key) {
            continue;
        }
        if !is_table_key(created, key) {
            indexes.push(AutomaticIndex { number, key })?;
        }
        number += 1;
    }
    Ok(indexes)
}
