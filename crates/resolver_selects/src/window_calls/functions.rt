//! What is computed over a window.
ghost use Rattle.std.specs.Prelude.{map, option_map};
ghost use Rattle.values.specs.declared.fault.Fault.TheVariants.{WrongPlace};
ghost use Rattle.semantics_names.specs.Outcome.{found_or};
ghost use Rattle.semantics_names.specs.Places as spec;
ghost use Rattle.resolver_terms.specs.Outcome.{Gives};
ghost use Rattle.resolver_terms.specs.SelectView.{function_of};
ghost use Rattle.expr.specs.View.{term};
ghost use Rattle.sql_reader_syntax.specs.ExprView.{maybe_of};
ghost use Rattle.sql_reader_grammar.specs.statement_trees.TreeView.{expr_of};
ghost use Rattle.sql_reader_syntax.specs.ExprTree.{trees_of};
ghost use Rattle.resolver_selects.specs.window_calls.Numbers.{number_of};
ghost use Rattle.resolver_selects.specs.window_calls.Ranking as ranking;
ghost use Rattle.resolver_selects.specs.window_calls.ShiftView.{nth_of, shift_of};

use crate::window_names::natural;
use expr::Expr as Term;
use resolver_exprs::{InnerQueries, Place, aggregate_call, term};
use resolver_terms::WindowFunction;
use sql_reader_grammar::Expr;
use sql_reader_syntax::Function;
use std::alloc::Global;
use values::{Fault, Value};

/// What `lag` and `lead` take.
#[derive(Drop)]
struct Shift {
    value: Term,
    /// How many rows before, or behind.
    rows: u64,
    /// What stands where there is no such row.
    otherwise: Term,
}

// The number that is written, where nothing else is.
fn number(e: &Expr) -> Result<u64, Fault>
    ensures { Gives (λ n. n) result (found_or WrongPlace (number_of (expr_of e.now))) }
{
    let Expr::Number(n) = e else {
        return Err(Fault::WrongPlace);
    };
    natural(*n).ok_or(Fault::WrongPlace)
}

// A function without arguments.
fn without(function: WindowFunction, items: &[Expr]) -> Result<WindowFunction, Fault>
    ensures { Gives function_of result (ranking.without (function_of function) (trees_of (map expr_of items.now))) }
{
    match items {
        [] => Ok(function),
        [_, ..] => Err(Fault::WrongPlace),
    }
}

// The number of buckets.
fn buckets(items: &[Expr]) -> Result<u64, Fault>
    ensures { Gives (λ n. n) result (ranking.buckets (trees_of (map expr_of items.now))) }
{
    match items {
        [n] => number(n),
        [] => Err(Fault::WrongPlace),
        [_, _, ..] => Err(Fault::WrongPlace),
    }
}

// The one argument.
fn single<I: InnerQueries, P: Place>(
    alloc: Global,
    inner: &I,
    place: &P,
    items: &[Expr],
) -> Result<Term, Fault>
    ensures { Gives term result (ranking.single (I.answers inner.now) (P.meaning place.now) (trees_of (map expr_of items.now))) }
{
    match items {
        [e] => term(alloc, inner, place, e),
        [] => Err(Fault::WrongPlace),
        [_, _, ..] => Err(Fault::WrongPlace),
    }
}

// A value, and a row of the frame.
fn nth<I: InnerQueries, P: Place>(
    alloc: Global,
    inner: &I,
    place: &P,
    items: &[Expr],
) -> Result<(Term, u64), Fault>
    ensures { Gives nth_of result (ranking.nth (I.answers inner.now) (P.meaning place.now) (trees_of (map expr_of items.now))) }
{
    match items {
        [e, row] => {
            let row = number(row)?;
            let value = term(alloc, inner, place, e)?;
            Ok((value, row))
        }
        [] => Err(Fault::WrongPlace),
        [_] => Err(Fault::WrongPlace),
        [_, _, _, ..] => Err(Fault::WrongPlace),
    }
}

// The row that `lag` and `lead` name, and what stands for it where there is none.
fn other_row<I: InnerQueries, P: Place>(
    alloc: Global,
    inner: &I,
    place: &P,
    items: &[Expr],
) -> Result<Shift, Fault>
    ensures { Gives shift_of result (ranking.shift (I.answers inner.now) (P.meaning place.now) (trees_of (map expr_of items.now))) }
{
    let null = Term::Literal(Value::Null);
    match items {
        [e] => {
            let value = term(alloc, inner, place, e)?;
            Ok(Shift {
                value,
                rows: 1,
                otherwise: null,
            })
        }
        [e, rows] => {
            let rows = number(rows)?;
            let value = term(alloc, inner, place, e)?;
            Ok(Shift {
                value,
                rows,
                otherwise: null,
            })
        }
        [e, rows, otherwise] => {
            let rows = number(rows)?;
            let value = term(alloc, inner, place, e)?;
            let otherwise = term(alloc, inner, place, otherwise)?;
            Ok(Shift {
                value,
                rows,
                otherwise,
            })
        }
        [] => Err(Fault::WrongPlace),
        [_, _, _, _, ..] => Err(Fault::WrongPlace),
    }
}

// A ranking or value function, by its name. The fault is `WrongPlace` of any other function, and of other arguments.
fn by_name<I: InnerQueries, P: Place>(
    alloc: Global,
    inner: &I,
    place: &P,
    name: Function,
    items: &[Expr],
) -> Result<WindowFunction, Fault>
    ensures { Gives function_of result
        (ranking.of_name (I.answers inner.now) (P.meaning place.now) name (trees_of (map expr_of items.now))) }
{
    match name {
        Function::RowNumber => without(WindowFunction::RowNumber, items),
        Function::Rank => without(WindowFunction::Rank, items),
        Function::DenseRank => without(WindowFunction::DenseRank, items),
        Function::NTile => Ok(WindowFunction::NTile(buckets(items)?)),
        Function::FirstValue => Ok(WindowFunction::FirstValue(single(alloc, inner, place, items)?)),
        Function::LastValue => Ok(WindowFunction::LastValue(single(alloc, inner, place, items)?)),
        Function::NthValue => {
            let (value, row) = nth(alloc, inner, place, items)?;
            Ok(WindowFunction::NthValue(value, row))
        }
        Function::Lag => {
            let s = other_row(alloc, inner, place, items)?;
            Ok(WindowFunction::Lag(s.value, s.rows, s.otherwise))
        }
        Function::Lead => {
            let s = other_row(alloc, inner, place, items)?;
            Ok(WindowFunction::Lead(s.value, s.rows, s.otherwise))
        }
        _ => Err(Fault::WrongPlace),
    }
}

// A ranking or value function. The fault is `WrongPlace` of any other function, and of other arguments.
fn ranking<I: InnerQueries, P: Place>(
    alloc: Global,
    inner: &I,
    place: &P,
    name: Function,
    items: &[Expr],
) -> Result<WindowFunction, Fault>
    ensures { Gives function_of result
        (spec.ranking (I.answers inner.now) (P.meaning place.now) name (trees_of (map expr_of items.now))) }
{
    by_name(alloc, inner, place, name, items)
}

// A ranking or value function, which has no FILTER.
fn ranking_unless<I: InnerQueries, P: Place>(
    alloc: Global,
    inner: &I,
    place: &P,
    name: Function,
    items: &[Expr],
    filter: &Option<Box<Expr>>,
) -> Result<WindowFunction, Fault>
    ensures { Gives function_of result (spec.ranking_unless (I.answers inner.now) (P.meaning place.now)
        (maybe_of (option_map (λ e. expr_of e.value) filter.now)) name (trees_of (map expr_of items.now))) }
{
    match filter {
        None => ranking(alloc, inner, place, name, items),
        Some(_) => Err(Fault::WrongPlace),
    }
}

/// What a call computes over its window: an aggregate, or a ranking or value function, which has no FILTER. The fault is one
/// of `term`; `WrongPlace` of any other call; or `NoMemory`. (Window Functions, "Built-in Window Functions")
pub(crate) fn function<I: InnerQueries, P: Place>(
    alloc: Global,
    inner: &I,
    place: &P,
    name: Function,
    items: &[Expr],
    filter: &Option<Box<Expr>>,
) -> Result<WindowFunction, Fault>
    ensures { let answers = I.answers inner.now in
        let says = P.meaning place.now in
        let items = trees_of (map expr_of items.now) in
        let filter = maybe_of (option_map (λ e. expr_of e.value) filter.now) in
        Gives function_of result
        (spec.function_or (spec.aggregate_call answers says (spec.aggregate_named name) items filter)
        (spec.ranking_unless answers says filter name items)) }
{
    let aggregate = aggregate_call(alloc, inner, place, name, items, filter)?;
    match aggregate {
        Some(aggregate) => Ok(WindowFunction::Aggregate(aggregate)),
        None => ranking_unless(alloc, inner, place, name, items, filter),
    }
}
