//! The terms of calls.
ghost use Rattle.std.specs.Prelude.{◌≡◌, map};
ghost use Rattle.semantics_names.specs.Expression as spec;
ghost use Rattle.resolver_terms.specs.Outcome.{Gives};
ghost use Rattle.expr.specs.View.{term};
ghost use Rattle.sql_reader_grammar.specs.statement_trees.TreeView.{behind_of};
ghost use Rattle.sql_reader_syntax.specs.declared.expr.Function.TheVariants as w;

use crate::expression_nodes::cases::{bare_case, when_then};
use crate::expression_nodes::operators::call;
use expr::{Expr, Function};
use sql_reader_grammar::{CallSuffix, Over};
use std::alloc::Global;
use values::Fault;

/// A function of one value.
fn unary_of(name: sql_reader_syntax::Function) -> Option<Function>
    ensures { result ≡ spec.unary_of name }
{
    match name {
        sql_reader_syntax::Function::Abs => Some(Function::Abs),
        sql_reader_syntax::Function::Hex => Some(Function::Hex),
        sql_reader_syntax::Function::Length => Some(Function::Length),
        sql_reader_syntax::Function::Lower => Some(Function::Lower),
        sql_reader_syntax::Function::TypeOf => Some(Function::TypeOf),
        sql_reader_syntax::Function::Upper => Some(Function::Upper),
        _ => None,
    }
}

fn unary(alloc: Global, function: Function, items: Vec<Expr>) -> Result<Expr, Fault>
    ensures { Gives term result (spec.unary function (map term items.items)) }
{
    let mut items = items.into_iter();
    match (items.next(), items.next()) {
        (Some(x), None) => Ok(call(alloc, function, x)?),
        _ => Err(Fault::WrongPlace),
    }
}

fn if_null(items: Vec<Expr>) -> Result<Expr, Fault>
    ensures { Gives term result (spec.several w.IfNull (map term items.items)) }
{
    match items.as_slice() {
        [_, _] => Ok(Expr::Coalesce(items)),
        _ => Err(Fault::WrongPlace),
    }
}

fn null_if(alloc: Global, items: Vec<Expr>) -> Result<Expr, Fault>
    ensures { Gives term result (spec.several w.NullIf (map term items.items)) }
{
    let mut items = items;
    if items.len() != 2 {
        return Err(Fault::WrongPlace);
    }
    let y = Box::new(alloc, items.remove(1))?;
    let x = Box::new(alloc, items.remove(0))?;
    Ok(Expr::NullIf(x, y))
}

fn iif(alloc: Global, items: Vec<Expr>) -> Result<Expr, Fault>
    ensures { Gives term result (spec.several w.Iif (map term items.items)) }
{
    let mut items = items;
    if items.len() != 3 {
        return Err(Fault::WrongPlace);
    }
    let otherwise = Box::new(alloc, items.remove(2))?;
    let then = items.remove(1);
    let mut arms = Vec::new(alloc);
    arms.push(when_then(items.remove(0), then))?;
    Ok(bare_case(arms, otherwise))
}

/// What a function makes of its arguments.
fn applied(
    alloc: Global,
    name: sql_reader_syntax::Function,
    items: Vec<Expr>,
) -> Result<Expr, Fault>
    ensures { Gives term result (spec.applied name (map term items.items)) }
{
    match unary_of(name) {
        Some(function) => unary(alloc, function, items),
        None => match name {
            sql_reader_syntax::Function::Coalesce => Ok(Expr::Coalesce(items)),
            sql_reader_syntax::Function::IfNull => if_null(items),
            sql_reader_syntax::Function::NullIf => null_if(alloc, items),
            sql_reader_syntax::Function::Iif => iif(alloc, items),
            _ => Err(Fault::WrongPlace),
        },
    }
}

/// What a call is. The fault is `WrongPlace` where its function isn't a scalar one, or FILTER or OVER stands behind it; or
/// `NoMemory`. (Built-In Scalar SQL Functions)
pub fn called(
    alloc: Global,
    behind: &CallSuffix,
    name: sql_reader_syntax::Function,
    items: Vec<Expr>,
) -> Result<Expr, Fault>
    ensures { Gives term result (spec.called (behind_of behind.now) name (map term items.items)) }
{
    match (&behind.filter, &behind.over) {
        (None, Over::Absent) => applied(alloc, name, items),
        _ => Err(Fault::WrongPlace),
    }
}
