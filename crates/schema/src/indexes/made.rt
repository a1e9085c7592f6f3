//! The index that a CREATE INDEX makes.
ghost use Rattle.std.specs.Prelude.{◌≡◌, ◌⊎◌, IfErr, IfNone, IfOk, IfSome, List, Option, map, option_map};
ghost use Rattle.values.specs.declared.fault.Fault.TheVariants.{NoMemory};
ghost use Rattle.sql_reader_grammar.specs.create_trees.CreateView.{index_of, indexed_of};
ghost use Rattle.expr.specs.Term.{Term};
ghost use Rattle.expr.specs.View.{term};
ghost use Rattle.schema.specs.indexes.Condition.{IsIndexCondition};
ghost use Rattle.schema.specs.indexes.IndexData.{IndexedData};
ghost use Rattle.schema.specs.indexes.Indexed.{AreIndexed, IsIndex};
ghost use Rattle.schema.specs.indexes.IndexView.{index_data};
ghost use Rattle.schema.specs.indexes.Refused.{IsUnmadeObject};
ghost use Rattle.schema_keys.specs.Names.{IsSameName};
ghost use Rattle.sql_reader_grammar.specs.statement_trees.TreeView.{expr_of};

use crate::indexes::others::others_of;
use crate::indexes::places::{are_distinct, indexed};
use crate::indexes::{Index, IndexedColumn, conditions};
use expr::Expr;
use schema_tables::{Column, Table};
use sql_reader_grammar::{CreateIndex, Expr as Tree, IndexedColumn as NamedColumn};
use std::alloc::{AllocError, Global};
use values::Fault;

/// The columns of an index that are named, over a table of these columns; `None` where one of them can't be, or is named
/// twice.
fn all_indexed(
    alloc: Global,
    columns: &[Column],
    named: &[NamedColumn],
) -> Result<Option<Vec<IndexedColumn>>, AllocError>
    ensures found { IfOk result (λ found. IfSome found
        (λ all. AreIndexed columns.now (map indexed_of named.now) all.items)) }
    ensures none { IfOk result (λ found. IfNone found
        ((all : List IndexedData) → ¬ AreIndexed columns.now (map indexed_of named.now) all)) }
{
    if !are_distinct(named) {
        return Ok(None);
    }
    let mut all = Vec::with_capacity(alloc, named.len())?;
    for wanted in named {
        let Some(column) = indexed(columns, wanted) else {
            return Ok(None);
        };
        all.push(column)?;
    }
    Ok(Some(all))
}

/// The condition behind WHERE, if one stands there. Any fault but `NoMemory` says that what stands there is none.
fn condition(alloc: Global, table: &Table, tree: Option<Tree>) -> Result<Option<Expr>, Fault>
    ensures made { IfOk result (λ e. IsIndexCondition table.now (option_map expr_of tree) (option_map term e)) }
    ensures refused { IfErr result (λ fault. (fault ≡ NoMemory)
        ⊎ ((condition : Option Term) → ¬ IsIndexCondition table.now (option_map expr_of tree) condition)) }
{
    match tree {
        Some(tree) => Ok(Some(conditions::condition(alloc, table, &tree)?)),
        None => Ok(None),
    }
}

/// The index that a CREATE INDEX makes on this table, whose tree has this root. (CREATE INDEX) The fault is
/// `UnsupportedObject`, with the index's name, where it makes none: the table has no column of a name, a column is named
/// twice, or has a collation other than BINARY, or what stands behind WHERE is no condition of whole numbers over the table's
/// columns, or has another operator than AND, OR, NOT and those that compare; or `NoMemory`.
pub fn index_from(
    alloc: Global,
    created: CreateIndex,
    table: &Table,
    root: u32,
) -> Result<Index, Fault>
    requires { IsSameName (index_of created).table table.now.name }
    ensures made { IfOk result (λ index. IsIndex (index_of created) table.now (index_data index)) }
    ensures root { IfOk result (λ index. index.root ≡ root) }
    ensures refused { IfErr result (IsUnmadeObject (IsIndex (index_of created) table.now) (index_of created).name) }
{
    let CreateIndex {
        name,
        table: owner,
        is_unique,
        columns: named,
        condition: tree,
    } = created;
    let Some(columns) = all_indexed(alloc, table.columns(), named.as_slice())? else {
        return Err(Fault::UnsupportedObject(name));
    };
    let condition = match condition(alloc, table, tree) {
        Ok(condition) => condition,
        Err(Fault::NoMemory) => return Err(Fault::NoMemory),
        Err(_) => return Err(Fault::UnsupportedObject(name)),
    };
    let others = others_of(alloc, table, columns.as_slice())?;
    Ok(Index {
        name,
        table: owner,
        root,
        columns,
        others,
        is_unique,
        condition,
    })
}
