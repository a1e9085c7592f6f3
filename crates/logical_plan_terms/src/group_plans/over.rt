//! The plan of a SELECT's groups.
ghost use Rattle.std.specs.Prelude.{◌≡◌, All, IfOk, MatchOption, map, ⊤};
ghost use Rattle.std.specs.List.{AllZip, range_with_len};
ghost use Rattle.logical_plan_terms.specs.group_plans.Grouped.{AggregateStandsOver, IsGroupedOver, IsOverGroups};
ghost use Rattle.semantics.specs.Query as query;
ghost use Rattle.logical_plan_terms.specs.Over.{IsOver};
ghost use Rattle.logical_plan.specs.PlanView.{plan_data};
ghost use Rattle.resolver_terms.specs.SelectView.{aggregate_of, grouping_of};

use crate::{expr_over, exprs_over};
use logical_plan::Plan;
use resolver_terms::{Aggregate, Grouping};
use std::alloc::{AllocError, Global};
use windows_groups::GroupTerms;

/// The places of the values of a group's row, of which there are so many.
pub fn columns_of_groups(alloc: Global, width: usize) -> Result<Vec<usize>, AllocError>
    ensures { IfOk result (λ columns. columns.items ≡ range_with_len 0 width) }
{
    let mut columns = Vec::with_capacity(alloc, width)?;
    for at in 0..width {
        columns.push(at)?;
    }
    Ok(columns)
}

/// Aggregates over the columns that are read, beside so many inner queries. There are none exactly where an argument names
/// another column, or the answer of one of these queries.
fn aggregates_over(
    alloc: Global,
    read: &[usize],
    inner: usize,
    aggregates: &[Aggregate],
) -> Result<Option<Vec<Aggregate>>, AllocError>
    ensures over { IfOk result (λ over. MatchOption over (¬ All (λ (a : query.Aggregate). IsOver read.now inner a.argument) (map aggregate_of aggregates.now)) (λ _. ⊤)) }
    ensures stand { IfOk result (λ over. MatchOption over ⊤
        (λ over. AllZip (AggregateStandsOver read.now inner) (map aggregate_of over.items) (map aggregate_of aggregates.now))) }
{
    let mut over = Vec::with_capacity(alloc, aggregates.len())?;
    for aggregate in aggregates {
        let argument = expr_over(alloc, read, inner, &aggregate.argument)?;
        match argument {
            None => return Ok(None),
            Some(argument) => over.push(Aggregate {
                function: aggregate.function,
                argument,
            })?,
        }
    }
    Ok(Some(over))
}

/// The rows of groups of the rows of a plan, of which these columns are read, that HAVING keeps; beside so many inner queries.
/// There is none exactly where GROUP BY or an argument of an aggregate names another column, HAVING another than those of a
/// group's row, or one of them the answer of one of these queries. (SELECT, "Generation of the set of result rows")
pub fn grouped_over(
    alloc: Global,
    read: &[usize],
    inner: usize,
    grouping: &Grouping,
    below: Plan,
) -> Result<Option<Plan>, AllocError>
    ensures over { IfOk result (λ plan. MatchOption plan (¬ IsOverGroups read.now inner (grouping_of grouping.now)) (λ _. ⊤)) }
    ensures plan { IfOk result (λ plan. MatchOption plan ⊤
        (λ plan. IsGroupedOver read.now inner (grouping_of grouping.now) (plan_data below) (plan_data plan))) }
{
    let by_over = exprs_over(alloc, read, inner, grouping.by.as_slice())?;
    let by = match by_over {
        None => return Ok(None),
        Some(by) => by,
    };
    let over = aggregates_over(alloc, read, inner, grouping.aggregates.as_slice())?;
    let aggregates = match over {
        None => return Ok(None),
        Some(aggregates) => aggregates,
    };
    let columns = columns_of_groups(alloc, grouping.by.len() + grouping.aggregates.len())?;
    let having_over = expr_over(alloc, columns.as_slice(), inner, &grouping.having)?;
    let having = match having_over {
        None => return Ok(None),
        Some(having) => having,
    };
    let mut tests = Vec::new(alloc);
    tests.push(having)?;
    let below = Box::new(alloc, below)?;
    let groups = Box::new(alloc, Plan::Aggregate(below, GroupTerms { by, aggregates }))?;
    Ok(Some(Plan::Filter(groups, tests)))
}
