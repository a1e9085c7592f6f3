//! The aggregate that a part of an expression is.
ghost use Rattle.std.specs.Prelude.{◌≡◌, IfOk, map, option_map};
ghost use Rattle.expr.specs.Term as t;
ghost use Rattle.semantics.specs.Query.{filtered};
ghost use Rattle.semantics_names.specs.Places as spec;
ghost use Rattle.resolver_exprs.specs.places.Transposed.{transposed};
ghost use Rattle.resolver_terms.specs.Outcome.{Gives};
ghost use Rattle.resolver_terms.specs.SelectView.{aggregate_function_of, aggregate_of};
ghost use Rattle.expr.specs.View.{term};
ghost use Rattle.sql_reader_syntax.specs.ExprView.{maybe_of};
ghost use Rattle.sql_reader_grammar.specs.statement_trees.TreeView.{expr_of};
ghost use Rattle.sql_reader_syntax.specs.ExprTree.{trees_of};

use crate::expression_names::{InnerQueries, Place, term};
use crate::expression_nodes::{case, when_then};
use expr::Expr as Term;
use resolver_terms::{Aggregate, AggregateFunction};
use sql_reader_grammar::{Expr, Over};
use std::alloc::{AllocError, Global};
use values::{Fault, Value};

/// The aggregate function of this name. (Built-in Aggregate Functions)
fn aggregate_named(name: sql_reader_syntax::Function) -> Option<AggregateFunction>
    ensures { option_map aggregate_function_of result ≡ spec.aggregate_named name }
{
    match name {
        sql_reader_syntax::Function::Count => Some(AggregateFunction::Count),
        sql_reader_syntax::Function::Sum => Some(AggregateFunction::Sum),
        sql_reader_syntax::Function::Min => Some(AggregateFunction::Min),
        sql_reader_syntax::Function::Max => Some(AggregateFunction::Max),
        _ => None,
    }
}

// The argument of an aggregate, on the rows on which a condition is true.
fn filtered(alloc: Global, condition: Term, argument: Term) -> Result<Term, AllocError>
    ensures { IfOk result (λ e. term e ≡ filtered (term condition) (term argument)) }
{
    let mut arms = Vec::new(alloc);
    arms.push(when_then(condition, argument))?;
    case(alloc, None, arms, Term::Literal(Value::Null))
}

// The argument of an aggregate, on the rows that its FILTER lets through.
fn filter_of<I: InnerQueries, P: Place>(
    alloc: Global,
    inner: &I,
    place: &P,
    filter: &Option<Box<Expr>>,
    argument: Term,
) -> Result<Term, Fault>
    ensures { Gives term result
        (spec.filter_of (I.answers inner.now) (P.meaning place.now)
        (maybe_of (option_map (λ e. expr_of e.value) filter.now)) (term argument)) }
{
    match filter {
        None => Ok(argument),
        Some(e) => {
            let condition = term(alloc, inner, place, e)?;
            Ok(filtered(alloc, condition, argument)?)
        }
    }
}

/// The aggregate that a call of a function of one value is, on the rows that its FILTER lets through; of another function it
/// is none. The fault is one of `term`, or `NoMemory`. (Built-in Aggregate Functions)
pub fn aggregate_call<I: InnerQueries, P: Place>(
    alloc: Global,
    inner: &I,
    place: &P,
    name: sql_reader_syntax::Function,
    items: &[Expr],
    filter: &Option<Box<Expr>>,
) -> Result<Option<Aggregate>, Fault>
    ensures { Gives (option_map aggregate_of) result
        (transposed (spec.aggregate_call (I.answers inner.now) (P.meaning place.now)
        (spec.aggregate_named name) (trees_of (map expr_of items.now))
        (maybe_of (option_map (λ e. expr_of e.value) filter.now)))) }
{
    let Some(function) = aggregate_named(name) else {
        return Ok(None);
    };
    match items {
        [e] => {
            let argument = term(alloc, inner, place, e)?;
            let argument = filter_of(alloc, inner, place, filter, argument)?;
            Ok(Some(Aggregate { function, argument }))
        }
        [] => Ok(None),
        [_, _, ..] => Ok(None),
    }
}

/// The aggregate that `count(*)` is: it counts a value that is never NULL. (Built-in Aggregate Functions)
pub fn count_rows<I: InnerQueries, P: Place>(
    alloc: Global,
    inner: &I,
    place: &P,
    filter: &Option<Box<Expr>>,
) -> Result<Aggregate, Fault>
    ensures { Gives aggregate_of result
        (spec.count_rows (I.answers inner.now) (P.meaning place.now) (maybe_of (option_map (λ e. expr_of e.value) filter.now))) }
{
    let argument = filter_of(alloc, inner, place, filter, Term::Literal(Value::Int(1)))?;
    Ok(Aggregate {
        function: AggregateFunction::Count,
        argument,
    })
}

/// The aggregate that a part of an expression is, without OVER, if it is one. The fault is one of `term`, or `NoMemory`.
/// (Built-in Aggregate Functions)
pub fn aggregate<I: InnerQueries, P: Place>(
    alloc: Global,
    inner: &I,
    place: &P,
    part: &Expr,
) -> Result<Option<Aggregate>, Fault>
    ensures { Gives (option_map aggregate_of) result
        (transposed (spec.aggregate_of (I.answers inner.now) (P.meaning place.now) (expr_of part.now))) }
{
    match part {
        Expr::CountRows(behind) => match &behind.over {
            Over::Absent => {
                let count = count_rows(alloc, inner, place, &behind.filter)?;
                Ok(Some(count))
            }
            _ => Ok(None),
        },
        Expr::Call(name, items, behind) => match &behind.over {
            Over::Absent => aggregate_call(alloc, inner, place, *name, items, &behind.filter),
            _ => Ok(None),
        },
        _ => Ok(None),
    }
}
