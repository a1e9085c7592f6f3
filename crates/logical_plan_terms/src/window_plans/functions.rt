//! Functions over windows, over the columns of the rows that these take.
ghost use Rattle.std.specs.Prelude.{[], ◌∷◌, All, IfOk, MatchOption, ⊤};
ghost use Rattle.semantics.specs.Hits.{function_terms};
ghost use Rattle.logical_plan_terms.specs.Over.{AreWhole, IsItself, IsOver};
ghost use Rattle.resolver_terms.specs.SelectView.{aggregate_of, function_of};
ghost use Rattle.expr.specs.View.{term};
ghost use Rattle.logical_plan_terms.specs.window_plans.Windowed.{AggregateIsItself, FunctionIsItself};

use crate::expr_over;
use expr::Expr;
use resolver_terms::{Aggregate, WindowFunction};
use std::alloc::{AllocError, Global};

/// An aggregate over these columns, beside so many inner queries. There is none exactly where its argument names another column, or
/// the answer of one of these queries.
fn aggregate_over(
    alloc: Global,
    columns: &[usize],
    inner: usize,
    aggregate: &Aggregate,
) -> Result<Option<Aggregate>, AllocError>
    requires { AreWhole columns.now }
    ensures over { IfOk result (λ over. MatchOption over (¬ IsOver columns.now inner (term aggregate.now.argument)) (λ _. ⊤)) }
    ensures itself { IfOk result (λ over. MatchOption over ⊤ (λ over. AggregateIsItself inner (aggregate_of over) (aggregate_of aggregate.now))) }
{
    let Some(argument) = expr_over(alloc, columns, inner, &aggregate.argument)? else {
        return Ok(None);
    };
    Ok(Some(Aggregate {
        function: aggregate.function,
        argument,
    }))
}

/// A value and what stands where there is no row, over these columns, beside so many inner queries. There are none exactly where one of
/// them names another column, or the answer of one of these queries.
fn pair_over(
    alloc: Global,
    columns: &[usize],
    inner: usize,
    value: &Expr,
    otherwise: &Expr,
) -> Result<Option<(Expr, Expr)>, AllocError>
    requires { AreWhole columns.now }
    ensures over { IfOk result (λ over. MatchOption over (¬ All (IsOver columns.now inner) (term value.now ∷ term otherwise.now ∷ [])) (λ _. ⊤)) }
    ensures itself { IfOk result (λ over. MatchOption over ⊤
        (λ over. IsItself inner (term over.0) (term value.now) × IsItself inner (term over.1) (term otherwise.now))) }
{
    let Some(value) = expr_over(alloc, columns, inner, value)? else {
        return Ok(None);
    };
    let Some(otherwise) = expr_over(alloc, columns, inner, otherwise)? else {
        return Ok(None);
    };
    Ok(Some((value, otherwise)))
}

/// A function over a window, over these columns, beside so many inner queries. There is none exactly where one of its expressions names
/// another column, or the answer of one of these queries. (Window Functions, "Built-in Window Functions")
pub(crate) fn function_over(
    alloc: Global,
    columns: &[usize],
    inner: usize,
    function: &WindowFunction,
) -> Result<Option<WindowFunction>, AllocError>
    requires { AreWhole columns.now }
    ensures over { IfOk result (λ over. MatchOption over (¬ All (IsOver columns.now inner) (function_terms (function_of function.now))) (λ _. ⊤)) }
    ensures itself { IfOk result (λ over. MatchOption over ⊤ (λ over. FunctionIsItself inner (function_of over) (function_of function.now))) }
{
    match function {
        WindowFunction::Aggregate(aggregate) => {
            let aggregate = aggregate_over(alloc, columns, inner, aggregate)?;
            Ok(aggregate.map(|aggregate| WindowFunction::Aggregate(aggregate)))
        }
        WindowFunction::RowNumber => Ok(Some(WindowFunction::RowNumber)),
        WindowFunction::Rank => Ok(Some(WindowFunction::Rank)),
        WindowFunction::DenseRank => Ok(Some(WindowFunction::DenseRank)),
        WindowFunction::NTile(buckets) => Ok(Some(WindowFunction::NTile(*buckets))),
        WindowFunction::Lag(value, count, otherwise) => {
            let pair = pair_over(alloc, columns, inner, value, otherwise)?;
            Ok(pair.map(|(value, otherwise)| WindowFunction::Lag(value, *count, otherwise)))
        }
        WindowFunction::Lead(value, count, otherwise) => {
            let pair = pair_over(alloc, columns, inner, value, otherwise)?;
            Ok(pair.map(|(value, otherwise)| WindowFunction::Lead(value, *count, otherwise)))
        }
        WindowFunction::FirstValue(value) => {
            let value = expr_over(alloc, columns, inner, value)?;
            Ok(value.map(|value| WindowFunction::FirstValue(value)))
        }
        WindowFunction::LastValue(value) => {
            let value = expr_over(alloc, columns, inner, value)?;
            Ok(value.map(|value| WindowFunction::LastValue(value)))
        }
        WindowFunction::NthValue(value, row) => {
            let value = expr_over(alloc, columns, inner, value)?;
            Ok(value.map(|value| WindowFunction::NthValue(value, *row)))
        }
    }
}
