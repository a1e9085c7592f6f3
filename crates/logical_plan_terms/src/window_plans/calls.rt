//! Calls over windows, over the columns of the rows that these take.
ghost use Rattle.std.specs.Prelude.{All, IfOk, MatchOption, map, ⊤};
ghost use Rattle.semantics.specs.Query as query;
ghost use Rattle.logical_plan_terms.specs.Over.{AreWhole, IsOver};
ghost use Rattle.resolver_terms.specs.SelectView.{call_of, sort_of, window_of};
ghost use Rattle.logical_plan_terms.specs.window_plans.Windowed.{CallIsItself, IsOverCall, IsOverWindow, SortsAreThemselves, WindowIsItself};

use crate::window_plans::functions::function_over;
use crate::{expr_over, exprs_over};
use resolver_terms::{SortTerm, Window, WindowCall};
use std::alloc::{AllocError, Global};

/// The terms of ORDER BY over these columns, beside so many inner queries. There are none exactly where one of them names another
/// column, or the answer of one of these queries.
fn order_over(
    alloc: Global,
    columns: &[usize],
    inner: usize,
    order: &[SortTerm],
) -> Result<Option<Vec<SortTerm>>, AllocError>
    requires { AreWhole columns.now }
    ensures over { IfOk result (λ over. MatchOption over (¬ All (λ (s : query.SortTerm). IsOver columns.now inner s.term) (map sort_of order.now)) (λ _. ⊤)) }
    ensures themselves { IfOk result (λ over. MatchOption over ⊤ (λ over. SortsAreThemselves inner (map sort_of over.items) (map sort_of order.now))) }
{
    let mut over = Vec::with_capacity(alloc, order.len())?;
    for sort in order {
        let term = expr_over(alloc, columns, inner, &sort.term)?;
        match term {
            None => return Ok(None),
            Some(term) => over.push(SortTerm {
                term,
                direction: sort.direction,
            })?,
        }
    }
    Ok(Some(over))
}

/// A window over these columns, beside so many inner queries. There is none exactly where PARTITION BY or ORDER BY names another
/// column, or the answer of one of these queries.
fn window_over(
    alloc: Global,
    columns: &[usize],
    inner: usize,
    window: &Window,
) -> Result<Option<Window>, AllocError>
    requires { AreWhole columns.now }
    ensures over { IfOk result (λ over. MatchOption over (¬ IsOverWindow columns.now inner (window_of window.now)) (λ _. ⊤)) }
    ensures itself { IfOk result (λ over. MatchOption over ⊤ (λ over. WindowIsItself inner (window_of over) (window_of window.now))) }
{
    let partition_over = exprs_over(alloc, columns, inner, window.partition.as_slice())?;
    let partition = match partition_over {
        None => return Ok(None),
        Some(partition) => partition,
    };
    let terms_over = order_over(alloc, columns, inner, window.order.as_slice())?;
    let order = match terms_over {
        None => return Ok(None),
        Some(order) => order,
    };
    Ok(Some(Window {
        partition,
        order,
        frame: window.frame,
    }))
}

/// A call over a window, over these columns, beside so many inner queries. There is none exactly where one of its expressions names
/// another column, or the answer of one of these queries.
pub(crate) fn call_over(
    alloc: Global,
    columns: &[usize],
    inner: usize,
    call: &WindowCall,
) -> Result<Option<WindowCall>, AllocError>
    requires { AreWhole columns.now }
    ensures over { IfOk result (λ over. MatchOption over (¬ IsOverCall columns.now inner (call_of call.now)) (λ _. ⊤)) }
    ensures itself { IfOk result (λ over. MatchOption over ⊤ (λ over. CallIsItself inner (call_of over) (call_of call.now))) }
{
    let over = window_over(alloc, columns, inner, &call.window)?;
    let window = match over {
        None => return Ok(None),
        Some(window) => window,
    };
    let called = function_over(alloc, columns, inner, &call.function)?;
    match called {
        None => Ok(None),
        Some(function) => Ok(Some(WindowCall { window, function })),
    }
}
