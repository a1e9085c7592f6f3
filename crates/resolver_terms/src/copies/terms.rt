//! Copies with other leaves in the expressions.
ghost use Rattle.std.specs.Prelude.{◌≡◌, IfOk, map, option_map};
ghost use Rattle.expr.specs.CopyView.{copied};
ghost use Rattle.semantics.specs.Mapped.{mapped_aggregate, mapped_call, mapped_function, mapped_grouping, mapped_key, mapped_key_term, mapped_select, mapped_sort, mapped_window};
ghost use Rattle.resolver_terms.specs.SelectView.{aggregate_of, call_of, function_of, grouping_of, key_of, key_term_of, select_of, sort_of, window_of};

use crate::{
    Aggregate, Grouping, Key, KeyTerm, Select, SortTerm, Window, WindowCall, WindowFunction,
};
use expr::Leaves;
use std::alloc::{AllocError, Global};

fn aggregate_with(
    alloc: Global,
    leaves: Leaves<'_>,
    aggregate: &Aggregate,
) -> Result<Aggregate, AllocError>
    ensures { IfOk result (λ copy. aggregate_of copy ≡ mapped_aggregate (copied leaves.entry) (aggregate_of aggregate.now)) }
{
    Ok(Aggregate {
        function: aggregate.function,
        argument: leaves.copy(alloc, &aggregate.argument)?,
    })
}

pub(crate) fn aggregates_with(
    alloc: Global,
    leaves: Leaves<'_>,
    aggregates: &[Aggregate],
) -> Result<Vec<Aggregate>, AllocError>
    ensures { IfOk result (λ v. map aggregate_of v.items ≡ map (mapped_aggregate (copied leaves.entry)) (map aggregate_of aggregates.now)) }
{
    let mut copies = Vec::with_capacity(alloc, aggregates.len())?;
    for aggregate in aggregates {
        let copy = aggregate_with(alloc, leaves, aggregate)?;
        copies.push(copy)?;
    }
    Ok(copies)
}

fn sort_with(alloc: Global, leaves: Leaves<'_>, sort: &SortTerm) -> Result<SortTerm, AllocError>
    ensures { IfOk result (λ copy. sort_of copy ≡ mapped_sort (copied leaves.entry) (sort_of sort.now)) }
{
    Ok(SortTerm {
        term: leaves.copy(alloc, &sort.term)?,
        direction: sort.direction,
    })
}

fn sorts_with(
    alloc: Global,
    leaves: Leaves<'_>,
    order: &[SortTerm],
) -> Result<Vec<SortTerm>, AllocError>
    ensures { IfOk result (λ v. map sort_of v.items ≡ map (mapped_sort (copied leaves.entry)) (map sort_of order.now)) }
{
    let mut copies = Vec::with_capacity(alloc, order.len())?;
    for sort in order {
        let copy = sort_with(alloc, leaves, sort)?;
        copies.push(copy)?;
    }
    Ok(copies)
}

pub(crate) fn window_with(
    alloc: Global,
    leaves: Leaves<'_>,
    window: &Window,
) -> Result<Window, AllocError>
    ensures { IfOk result (λ copy. window_of copy ≡ mapped_window (copied leaves.entry) (window_of window.now)) }
{
    Ok(Window {
        partition: leaves.copy_all(alloc, window.partition.as_slice())?,
        order: sorts_with(alloc, leaves, window.order.as_slice())?,
        frame: window.frame,
    })
}

fn function_with(
    alloc: Global,
    leaves: Leaves<'_>,
    function: &WindowFunction,
) -> Result<WindowFunction, AllocError>
    ensures { IfOk result (λ copy. function_of copy ≡ mapped_function (copied leaves.entry) (function_of function.now)) }
{
    match function {
        WindowFunction::Aggregate(a) => {
            let a = aggregate_with(alloc, leaves, a)?;
            Ok(WindowFunction::Aggregate(a))
        }
        WindowFunction::RowNumber => Ok(WindowFunction::RowNumber),
        WindowFunction::Rank => Ok(WindowFunction::Rank),
        WindowFunction::DenseRank => Ok(WindowFunction::DenseRank),
        WindowFunction::NTile(n) => Ok(WindowFunction::NTile(*n)),
        WindowFunction::Lag(x, n, otherwise) => {
            let x = leaves.copy(alloc, x)?;
            let otherwise = leaves.copy(alloc, otherwise)?;
            Ok(WindowFunction::Lag(x, *n, otherwise))
        }
        WindowFunction::Lead(x, n, otherwise) => {
            let x = leaves.copy(alloc, x)?;
            let otherwise = leaves.copy(alloc, otherwise)?;
            Ok(WindowFunction::Lead(x, *n, otherwise))
        }
        WindowFunction::FirstValue(x) => Ok(WindowFunction::FirstValue(leaves.copy(alloc, x)?)),
        WindowFunction::LastValue(x) => Ok(WindowFunction::LastValue(leaves.copy(alloc, x)?)),
        WindowFunction::NthValue(x, n) => Ok(WindowFunction::NthValue(leaves.copy(alloc, x)?, *n)),
    }
}

fn call_with(alloc: Global, leaves: Leaves<'_>, call: &WindowCall) -> Result<WindowCall, AllocError>
    ensures { IfOk result (λ copy. call_of copy ≡ mapped_call (copied leaves.entry) (call_of call.now)) }
{
    Ok(WindowCall {
        window: window_with(alloc, leaves, &call.window)?,
        function: function_with(alloc, leaves, &call.function)?,
    })
}

pub(crate) fn calls_with(
    alloc: Global,
    leaves: Leaves<'_>,
    calls: &[WindowCall],
) -> Result<Vec<WindowCall>, AllocError>
    ensures { IfOk result (λ v. map call_of v.items ≡ map (mapped_call (copied leaves.entry)) (map call_of calls.now)) }
{
    let mut copies = Vec::with_capacity(alloc, calls.len())?;
    for call in calls {
        let copy = call_with(alloc, leaves, call)?;
        copies.push(copy)?;
    }
    Ok(copies)
}

pub(crate) fn grouping_with(
    alloc: Global,
    leaves: Leaves<'_>,
    grouping: &Option<Grouping>,
) -> Result<Option<Grouping>, AllocError>
    ensures { IfOk result (λ copy. option_map grouping_of copy
        ≡ option_map (mapped_grouping (copied leaves.entry)) (option_map grouping_of grouping.now)) }
{
    match grouping {
        None => Ok(None),
        Some(grouping) => {
            let by = leaves.copy_all(alloc, grouping.by.as_slice())?;
            let aggregates = aggregates_with(alloc, leaves, grouping.aggregates.as_slice())?;
            let having = leaves.copy(alloc, &grouping.having)?;
            Ok(Some(Grouping {
                by,
                aggregates,
                having,
            }))
        }
    }
}

/// A copy of a SELECT without its FROM, with these leaves in its expressions. (SELECT)
pub fn select_with(alloc: Global, leaves: Leaves<'_>, select: &Select) -> Result<Select, AllocError>
    ensures { IfOk result (λ copy. select_of copy ≡ mapped_select (copied leaves.entry) (select_of select.now)) }
{
    let condition = leaves.copy(alloc, &select.condition)?;
    let grouping = grouping_with(alloc, leaves, &select.grouping)?;
    let windows = calls_with(alloc, leaves, select.windows.as_slice())?;
    let columns = leaves.copy_all(alloc, select.columns.as_slice())?;
    Ok(Select {
        condition,
        grouping,
        windows,
        columns,
        distinct: select.distinct,
    })
}

fn key_term_with(alloc: Global, leaves: Leaves<'_>, by: &KeyTerm) -> Result<KeyTerm, AllocError>
    ensures { IfOk result (λ copy. key_term_of copy ≡ mapped_key_term (copied leaves.entry) (key_term_of by.now)) }
{
    match by {
        KeyTerm::Result(at) => Ok(KeyTerm::Result(*at)),
        KeyTerm::Term(term) => Ok(KeyTerm::Term(leaves.copy(alloc, term)?)),
    }
}

fn key_with(alloc: Global, leaves: Leaves<'_>, key: &Key) -> Result<Key, AllocError>
    ensures { IfOk result (λ copy. key_of copy ≡ mapped_key (copied leaves.entry) (key_of key.now)) }
{
    Ok(Key {
        by: key_term_with(alloc, leaves, &key.by)?,
        direction: key.direction,
    })
}

/// Copies of the keys of ORDER BY, with these leaves in their expressions. (SELECT, "The ORDER BY clause")
pub fn order_with(alloc: Global, leaves: Leaves<'_>, order: &[Key]) -> Result<Vec<Key>, AllocError>
    ensures { IfOk result (λ v. map key_of v.items ≡ map (mapped_key (copied leaves.entry)) (map key_of order.now)) }
{
    let mut copies = Vec::with_capacity(alloc, order.len())?;
    for key in order {
        let copy = key_with(alloc, leaves, key)?;
        copies.push(copy)?;
    }
    Ok(copies)
}
