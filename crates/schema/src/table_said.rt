//! The table that a row of the schema describes.
ghost use Rattle.std.specs.Prelude.{◌≡◌, Contains, IfErr, IfNone, IfOk, IfSome, List};
ghost use Rattle.values.specs.Row.{Row};
ghost use Rattle.sql_reader_creates.specs.CreateGrammar.{SpellsCreate};
ghost use Rattle.sql_reader_grammar.specs.phrases.Texts.{AreWithinLimits};
ghost use Rattle.sql_reader_grammar.specs.create_trees.CreateTrees.{columns_of_table};
ghost use Rattle.sql_reader_grammar.specs.create_trees.CreateView.{table_of};
ghost use Rattle.schema.specs.indexes.Refused.{IsUnmadeObject};
ghost use Rattle.schema_keys.specs.Created.{IsTable};
ghost use Rattle.schema.specs.Keyed.{IsMadeTable, SaysKeyed};
ghost use Rattle.schema.specs.KeyedView.{keyed_data};
ghost use Rattle.schema.specs.Objects.{object_row};
ghost use Rattle.schema.specs.ObjectView.{object_data};
ghost use Rattle.schema.specs.Refused.{IsRefusedSchema, IsTableTooMuch, SpellsNoTable};
ghost use Rattle.schema.specs.Says.{IsNoTable};
ghost use Rattle.schema.specs.TextRefused.{IsTextRefused};

use crate::keyed::{KeyedTable, key_indexes};
use crate::objects::{Kind, Object, object_of, root_within};
use schema_keys::{automatic_indexes, is_same_name, keys_of, table_from};
use sql_reader_creates::read_create;
use sql_reader_grammar::CreateTable;
use std::alloc::Global;
use values::{Fault, Row};

/// The CREATE TABLE that the text of an object of this name spells. The fault is `SchemaText` where it spells none, and
/// `UnsupportedObject` where it is beyond the limits of `create_reader`, with that name; or `NoMemory`.
fn created_by(alloc: Global, name: &str, sql: &str) -> Result<CreateTable, Fault>
    ensures spelt { IfOk result (λ created. SpellsCreate sql.now (table_of created)) }
    ensures within { IfOk result (λ created. AreWithinLimits columns_of_table sql.now (table_of created)) }
    ensures refused { IfErr result (IsTextRefused (SpellsNoTable sql.now) (IsTableTooMuch sql.now) name.now) }
{
    match read_create(alloc, sql) {
        Ok(created) => Ok(created),
        Err(Fault::Syntax(_)) => Err(Fault::SchemaText(String::from_str(alloc, name)?)),
        Err(Fault::Limit) => Err(Fault::UnsupportedObject(String::from_str(alloc, name)?)),
        Err(fault) => Err(fault),
    }
}

/// The table that the CREATE TABLE of an object of this name makes, whose tree has this root, with the indexes that its keys
/// want. The fault is `UnsupportedObject`, with that name, where it makes none; or `NoMemory`.
fn made_by(alloc: Global, name: &str, created: CreateTable, root: u32) -> Result<KeyedTable, Fault>
    ensures made { IfOk result (λ keyed. IsMadeTable (table_of created) root (keyed_data keyed)) }
    ensures refused { IfErr result (IsUnmadeObject (IsTable (table_of created)) name.now) }
{
    let keys = keys_of(alloc, &created)?;
    let automatic = automatic_indexes(alloc, &created, keys.as_slice())?;
    let Some(table) = table_from(alloc, created, root)? else {
        return Err(Fault::UnsupportedObject(String::from_str(alloc, name)?));
    };
    let wanted = key_indexes(alloc, &table, automatic.as_slice())?;
    Ok(KeyedTable { table, wanted })
}

/// The table of an object that is one, with the indexes that its keys want. The fault is `SchemaRow` where its root or its names
/// aren't as they have to be, or its text is NULL; `SchemaText` and `UnsupportedObject`, with its name, where the text makes no
/// table; or `NoMemory`.
fn table_by(alloc: Global, object: &Object<'_>, pages: u32) -> Result<KeyedTable, Fault>
    requires { object.now.kind ≡ Kind.Table }
    ensures said { IfOk result (λ keyed. SaysKeyed pages (object_row (object_data object.now)) (keyed_data keyed)) }
    ensures refused { IfErr result (λ fault. (rows : List Row) → Contains rows (object_row (object_data object.now))
        → IsRefusedSchema pages rows fault) }
{
    let Some(root) = root_within(object.root, pages) else {
        return Err(Fault::SchemaRow);
    };
    let Some(sql) = object.sql else {
        return Err(Fault::SchemaRow);
    };
    let created = created_by(alloc, object.name, sql)?;
    let name = created.name.as_str();
    if !is_same_name(object.name, name) || !is_same_name(object.owner, name) {
        return Err(Fault::SchemaRow);
    }
    made_by(alloc, object.name, created, root)
}

/// The table that a row of the schema says; `None` where it says an index or a trigger. (The Schema Table) The fault is one
/// of those above, or `SchemaRow` where the row is that of no object, and `UnsupportedObject` where it is a view's.
pub(crate) fn table_said(alloc: Global, row: &Row, pages: u32) -> Result<Option<KeyedTable>, Fault>
    ensures said { IfOk result (λ found. IfSome found (λ keyed. SaysKeyed pages row.now (keyed_data keyed))) }
    ensures other { IfOk result (λ found. IfNone found (IsNoTable row.now)) }
    ensures refused { IfErr result (λ fault. (rows : List Row) → Contains rows row.now → IsRefusedSchema pages rows fault) }
{
    let Some(object) = object_of(row) else {
        return Err(Fault::SchemaRow);
    };
    match object.kind {
        Kind::Table => Ok(Some(table_by(alloc, &object, pages)?)),
        Kind::Index => Ok(None),
        Kind::View => Err(Fault::UnsupportedObject(String::from_str(alloc, object.name)?)),
        Kind::Trigger if object.sql.is_none() => Err(Fault::SchemaRow),
        Kind::Trigger => Ok(None),
    }
}
