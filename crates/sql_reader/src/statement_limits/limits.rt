//! A statement's limits.
ghost use Rattle.std.specs.Prelude.{◌≡◌, ◌↔◌, map, Err, IsOk};
ghost use Rattle.sql_reader.specs.statement_limits.Limits.{IsBeyond, IsWithin};
ghost use Rattle.sql_reader.specs.statement_limits.Spending.{after_items, after_statement};
ghost use Rattle.sql_reader_grammar.specs.statement_trees.StatementView.{item_of, statement_of};

use crate::statement_limits::spending::{behind_query, behind_terms};
use sql_reader_grammar::{CommonTableExpr, Statement};
use values::Fault;

/// The most sources that a statement has as it is written.
pub const MAX_WRITTEN: usize = 64;

/// How many sources may still be written behind items of WITH.
fn behind_items(items: &[CommonTableExpr], mut left: usize) -> Option<usize>
    ensures { result ≡ after_items (map item_of items.now) left }
{
    for item in items {
        left = behind_query(&item.query, left)?;
    }
    Some(left)
}

/// How many sources may still be written behind a statement.
fn behind_statement(statement: &Statement, left: usize) -> Option<usize>
    ensures { result ≡ after_statement (statement_of statement.now) left }
{
    let left = behind_items(&statement.items, left)?;
    let left = behind_query(&statement.query, left)?;
    behind_terms(&statement.order, left)
}

/// Tests that each SELECT of a statement has at most 100 result columns, of which a `*` is one, and at most 8 sources, and the
/// statement at most 64 sources as it is written, of which a mention of an item of WITH is one. The fault is `Limit`.
pub fn check_limits(statement: &Statement) -> Result<(), Fault>
    ensures within { IsOk result ↔ IsWithin (statement_of statement.now) }
    ensures beyond { (result ≡ Err Fault.Limit) ↔ IsBeyond (statement_of statement.now) }
{
    match behind_statement(statement, MAX_WRITTEN) {
        Some(_) => Ok(()),
        None => Err(Fault::Limit),
    }
}
