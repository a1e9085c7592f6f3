//! The plan of a SELECT's windows.
ghost use Rattle.std.specs.Prelude.{All, IfOk, MatchOption, map, ⊤};
ghost use Rattle.logical_plan_terms.specs.Over.{AreWhole};
ghost use Rattle.logical_plan.specs.PlanView.{plan_data};
ghost use Rattle.resolver_terms.specs.SelectView.{call_of};
ghost use Rattle.logical_plan_terms.specs.window_plans.Windowed.{CallsAreThemselves, IsOverCall, IsWindowedOver};

use crate::window_plans::calls::call_over;
use logical_plan::Plan;
use resolver_terms::WindowCall;
use std::alloc::{AllocError, Global};

/// Calls over windows, over these columns, beside so many inner queries. There are none exactly where one of their expressions names
/// another column, or the answer of one of these queries.
fn calls_over(
    alloc: Global,
    columns: &[usize],
    inner: usize,
    calls: &[WindowCall],
) -> Result<Option<Vec<WindowCall>>, AllocError>
    requires { AreWhole columns.now }
    ensures over { IfOk result (λ over. MatchOption over (¬ All (IsOverCall columns.now inner) (map call_of calls.now)) (λ _. ⊤)) }
    ensures themselves { IfOk result (λ over. MatchOption over ⊤ (λ over. CallsAreThemselves inner (map call_of over.items) (map call_of calls.now))) }
{
    let mut over = Vec::with_capacity(alloc, calls.len())?;
    for call in calls {
        let called = call_over(alloc, columns, inner, call)?;
        match called {
            None => return Ok(None),
            Some(call) => over.push(call)?,
        }
    }
    Ok(Some(over))
}

/// The values of the rows of a plan at these places, of which each is known by where it then is, with the values of calls over windows
/// after them, beside a given number of inner queries. There is none exactly where an expression of a call names another column, or the answer of one of these queries.
/// (Window Functions)
pub fn windowed_over(
    alloc: Global,
    columns: &[usize],
    inner: usize,
    calls: &[WindowCall],
    places: Vec<usize>,
    below: Plan,
) -> Result<Option<Plan>, AllocError>
    requires { AreWhole columns.now }
    ensures over { IfOk result (λ plan. MatchOption plan (¬ All (IsOverCall columns.now inner) (map call_of calls.now)) (λ _. ⊤)) }
    ensures plan { IfOk result (λ plan. MatchOption plan ⊤ (λ plan. IsWindowedOver inner (map call_of calls.now) places.items (plan_data below) (plan_data plan))) }
{
    let over = calls_over(alloc, columns, inner, calls)?;
    let calls = match over {
        None => return Ok(None),
        Some(calls) => calls,
    };
    let below = Box::new(alloc, below)?;
    Ok(Some(Plan::Window(below, places, calls)))
}
