//! The index that a row of the schema describes.
ghost use Rattle.std.specs.Prelude.{◌≡◌, All, Contains, IfErr, IfNone, IfOk, IfSome, List, map};
ghost use Rattle.std.specs.List.{Any};
ghost use Rattle.values.specs.Row.{Row};
ghost use Rattle.sql_reader_creates.specs.IndexTexts.{IsTooMuch, SpellsIndex, SpellsNoIndex};
ghost use Rattle.sql_reader_grammar.specs.phrases.Texts.{AreWithinLimits};
ghost use Rattle.sql_reader_grammar.specs.create_trees.CreateTrees.{columns_of_index};
ghost use Rattle.sql_reader_grammar.specs.create_trees.CreateView.{index_of};
ghost use Rattle.schema.specs.indexes.Indexed.{IsIndex};
ghost use Rattle.schema.specs.indexes.IndexView.{index_data};
ghost use Rattle.schema.specs.indexes.Refused.{IsUnmadeObject};
ghost use Rattle.schema_keys.specs.Names.{IsSameName};
ghost use Rattle.schema.specs.Keyed.{AreKeyedOf, IsNotWanted, IsRootedAs, tables_in};
ghost use Rattle.schema.specs.KeyedView.{keyed_data};
ghost use Rattle.schema.specs.Objects.{object_row};
ghost use Rattle.schema.specs.ObjectView.{object_data};
ghost use Rattle.schema.specs.Refused.{IsRefusedSchema};
ghost use Rattle.schema.specs.Says.{Doubled, IsNoIndex, SaysAnyIndex};
ghost use Rattle.schema.specs.TextRefused.{IsTextRefused};

use crate::indexes::{Index, index_from};
use crate::keyed::{KeyedTable, wanted_of};
use crate::objects::{Kind, Object, object_of, root_within};
use schema_keys::is_same_name;
use schema_tables::Table;
use sql_reader_creates::read_create_index;
use sql_reader_grammar::CreateIndex;
use std::alloc::Global;
use values::{Fault, Row};

/// The CREATE INDEX that the text of an object of this name spells. The fault is `SchemaText` where it spells none, and
/// `UnsupportedObject` where it is beyond the limits of `create_reader`, with that name; or `NoMemory`.
fn created_by(alloc: Global, name: &str, sql: &str) -> Result<CreateIndex, Fault>
    ensures spelt { IfOk result (λ created. SpellsIndex sql.now (index_of created)) }
    ensures within { IfOk result (λ created. AreWithinLimits columns_of_index sql.now (index_of created)) }
    ensures refused { IfErr result (IsTextRefused (SpellsNoIndex sql.now) (IsTooMuch sql.now) name.now) }
{
    match read_create_index(alloc, sql) {
        Ok(created) => Ok(created),
        Err(Fault::Syntax(_)) => Err(Fault::SchemaText(String::from_str(alloc, name)?)),
        Err(Fault::Limit) => Err(Fault::UnsupportedObject(String::from_str(alloc, name)?)),
        Err(fault) => Err(fault),
    }
}

/// The index that the CREATE INDEX of an object of this name makes on this table, whose tree has this root. The fault is
/// `UnsupportedObject`, with that name, where it makes none; or `NoMemory`.
fn made_by(
    alloc: Global,
    name: &str,
    created: CreateIndex,
    table: &Table,
    root: u32,
) -> Result<Index, Fault>
    requires { IsSameName (index_of created).table table.now.name }
    ensures made { IfOk result (λ index. IsIndex (index_of created) table.now (index_data index) × (index.root ≡ root)) }
    ensures refused { IfErr result (IsUnmadeObject (IsIndex (index_of created) table.now) name.now) }
{
    match index_from(alloc, created, table, root) {
        Ok(index) => Ok(index),
        Err(fault) => match fault {
            Fault::NoMemory => Err(Fault::NoMemory),
            _ => Err(Fault::UnsupportedObject(String::from_str(alloc, name)?)),
        },
    }
}

/// The table of this name.
fn table_named<'t>(tables: &'t [KeyedTable], name: &str) -> Option<&'t KeyedTable>
    ensures found { IfSome result (λ keyed. Contains (map keyed_data tables.now) (keyed_data keyed.now)
        × IsSameName keyed.now.table.name name.now) }
    ensures none { IfNone result (All (λ k. ¬ IsSameName k.table.name name.now) (map keyed_data tables.now)) }
{
    for keyed in tables {
        if is_same_name(keyed.table.name(), name) {
            return Some(keyed);
        }
    }
    None
}

/// The index of an object that is one without a text, on the table of its owner's name, whose tree has this root. The fault
/// is `SchemaRow` where no key of the table wants it; or `NoMemory`.
fn key_index_by(
    alloc: Global,
    object: &Object<'_>,
    keyed: &KeyedTable,
    root: u32,
) -> Result<Index, Fault>
    ensures said { IfOk result (λ index. Any (IsRootedAs object.now.name.now (keyed_data keyed.now).table.name root (index_data index))
        (keyed_data keyed.now).wanted) }
    ensures refused { IfErr result (IsNotWanted object.now.name.now (keyed_data keyed.now).wanted) }
{
    let Some(wanted) = wanted_of(keyed.wanted.as_slice(), object.name) else {
        return Err(Fault::SchemaRow);
    };
    Ok(wanted.rooted(alloc, keyed.table.name(), root)?)
}

/// The index of an object that is one, on one of these tables. The fault is `SchemaRow` where its root or its names aren't
/// as they have to be, or it has no text and no key wants it; `SchemaText` and `UnsupportedObject`, with its name, where the
/// text makes no index; or `NoMemory`.
fn index_by(
    alloc: Global,
    object: &Object<'_>,
    tables: &[KeyedTable],
    pages: u32,
) -> Result<Index, Fault>
    requires { object.now.kind ≡ Kind.Index }
    ensures said { IfOk result (λ index. (rows : List Row) → AreKeyedOf pages rows (map keyed_data tables.now)
        → SaysAnyIndex pages rows (tables_in (map keyed_data tables.now)) (object_row (object_data object.now)) (index_data index)) }
    ensures refused { IfErr result (λ fault. (rows : List Row) → Contains rows (object_row (object_data object.now))
        → AreKeyedOf pages rows (map keyed_data tables.now) → ¬ Doubled rows → IsRefusedSchema pages rows fault) }
{
    let Some(root) = root_within(object.root, pages) else {
        return Err(Fault::SchemaRow);
    };
    let Some(keyed) = table_named(tables, object.owner) else {
        return Err(Fault::SchemaRow);
    };
    let Some(sql) = object.sql else {
        return key_index_by(alloc, object, keyed, root);
    };
    let created = created_by(alloc, object.name, sql)?;
    let name = created.name.as_str();
    let owner = created.table.as_str();
    if !is_same_name(object.name, name) || !is_same_name(object.owner, owner) {
        return Err(Fault::SchemaRow);
    }
    made_by(alloc, object.name, created, &keyed.table, root)
}

/// The index that a row of the schema says, on one of these tables; `None` where it says a table or a trigger. (The Schema
/// Table) The fault is one of those above.
pub(crate) fn index_said(
    alloc: Global,
    row: &Row,
    tables: &[KeyedTable],
    pages: u32,
) -> Result<Option<Index>, Fault>
    ensures said { IfOk result (λ found. IfSome found (λ index. (rows : List Row) → AreKeyedOf pages rows (map keyed_data tables.now)
        → SaysAnyIndex pages rows (tables_in (map keyed_data tables.now)) row.now (index_data index))) }
    ensures other { IfOk result (λ found. IfNone found (IsNoIndex row.now)) }
    ensures refused { IfErr result (λ fault. (rows : List Row) → Contains rows row.now
        → AreKeyedOf pages rows (map keyed_data tables.now) → ¬ Doubled rows → IsRefusedSchema pages rows fault) }
{
    let Some(object) = object_of(row) else {
        return Err(Fault::SchemaRow);
    };
    match object.kind {
        Kind::Index => Ok(Some(index_by(alloc, &object, tables, pages)?)),
        Kind::Table => Ok(None),
        Kind::Trigger => Ok(None),
        Kind::View => Err(Fault::UnsupportedObject(String::from_str(alloc, object.name)?)),
    }
}
