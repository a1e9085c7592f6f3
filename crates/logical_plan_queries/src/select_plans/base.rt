//! What a SELECT computes on the rows of FROM, on those of groups, or on either with the values of windows,
//! whatever becomes of its result rows.
ghost use Rattle.std.specs.Prelude.{◌≡◌, ◌==◌, ◌≢◌, [], All, IfOk, MatchOption, map, option_map, position, ⊤};
ghost use Rattle.expr.specs.Leaves.{place_in};
ghost use Rattle.expr.specs.View.{term};
ghost use Rattle.semantics.specs.Hits.{order_terms};
ghost use Rattle.logical_plan_terms.specs.Over.{AreWhole};
ghost use Rattle.logical_plan.specs.PlanView.{plan_data};
ghost use Rattle.logical_plan_queries.specs.select_plans.Made.{IsMadeOver, IsOverRows, IsOverWindows, StandsOverRows};
ghost use Rattle.logical_plan_queries.specs.select_plans.Served.{AreOfRows};
ghost use Rattle.resolver_terms.specs.SelectView.{call_of, grouping_of, key_of, select_of};
ghost use Rattle.logical_plan_terms.specs.table_plans.TableJoins.{AreTableJoins};
ghost use Rattle.logical_plan_terms.specs.table_plans.Input.{input_from};
ghost use Rattle.logical_plan_terms.specs.window_plans.Windowed.{IsOverCall, written_places};

use crate::select_plans::columns::{columns_read, push_places};
use expr::Expr;
use logical_plan::Plan;
use logical_plan_terms::{
    Input, columns_of_groups, exprs_over, grouped_over, plan_of, windowed_over,
};
use resolver_terms::{Grouping, Key, Select, WindowCall};
use std::alloc::{AllocError, Global};

/// Rows on the way to the result columns: which columns are known of them, and their plan.
#[derive(Drop)]
struct Rows {
    read: Vec<usize>,
    plan: Plan,
}

/// The rows that result columns are computed on, and the result columns over them.
#[derive(Drop)]
pub struct Base {
    pub read: Vec<usize>,
    pub plan: Plan,
    pub columns: Vec<Expr>,
}

/// The place of a column among those that are read, if it is one of them.
fn place_among(read: &[usize], column: usize) -> Option<usize>
    ensures { result ≡ position (λ at. at == column) read.now }
{
    read.iter().position(|at| *at == column)
}

/// The place of a column among those that are read, or the place after them.
fn place_of(read: &[usize], column: usize) -> usize
    ensures { result ≡ place_in read.now column }
{
    place_among(read, column).unwrap_or(read.len())
}

/// The rows that windows take, or result columns where there are none, over a plan of FROM and WHERE of which these columns are read:
/// its rows, or those of groups that HAVING keeps. There are none where groups name other columns. (SELECT, "Generation of the set of
/// result rows")
fn rows_over(
    alloc: Global,
    read: Vec<usize>,
    grouping: &Option<Grouping>,
    below: Plan,
) -> Result<Option<Rows>, AllocError>
    ensures over { IfOk result (λ rows. MatchOption rows (¬ StandsOverRows read.items (option_map grouping_of grouping.now)) (λ _. ⊤)) }
    ensures rows { IfOk result (λ rows. MatchOption rows ⊤
        (λ rows. IsOverRows read.items (option_map grouping_of grouping.now) (plan_data below) rows.read.items (plan_data rows.plan))) }
{
    let grouping = match grouping {
        None => return Ok(Some(Rows { read, plan: below })),
        Some(grouping) => grouping,
    };
    let grouped = grouped_over(alloc, read.as_slice(), 0, grouping, below)?;
    let plan = match grouped {
        None => return Ok(None),
        Some(plan) => plan,
    };
    let read = columns_of_groups(alloc, grouping.by.len() + grouping.aggregates.len())?;
    Ok(Some(Rows { read, plan }))
}

/// Where each column is among these, in the order in which they are written.
fn places_written(alloc: Global, read: &[usize]) -> Result<Vec<usize>, AllocError>
    ensures { IfOk result (λ places. places.items ≡ written_places read.now) }
{
    let mut places = Vec::with_capacity(alloc, read.len())?;
    for column in 0..read.len() {
        places.push(place_of(read, column))?;
    }
    Ok(places)
}

/// The rows that result columns are computed on, over those that windows take, of which each column is known where there are windows:
/// the same, or these with the values of the calls behind them. There are none where a call names another column. (Window Functions)
fn windows_over(
    alloc: Global,
    taken: Rows,
    calls: &[WindowCall],
) -> Result<Option<Rows>, AllocError>
    requires { calls.now ≢ [] → AreWhole taken.read.items }
    ensures over { IfOk result (λ rows. MatchOption rows (¬ All (IsOverCall taken.read.items 0) (map call_of calls.now)) (λ _. ⊤)) }
    ensures rows { IfOk result (λ rows. MatchOption rows ⊤
        (λ rows. IsOverWindows (map call_of calls.now) taken.read.items (plan_data taken.plan) rows.read.items (plan_data rows.plan))) }
{
    if calls.is_empty() {
        return Ok(Some(taken));
    }
    let Rows {
        mut read,
        plan: below,
    } = taken;
    let places = places_written(alloc, read.as_slice())?;
    let windowed = windowed_over(alloc, read.as_slice(), 0, calls, places, below)?;
    let plan = match windowed {
        None => return Ok(None),
        Some(plan) => plan,
    };
    push_places(calls.len(), &mut read)?;
    Ok(Some(Rows { read, plan }))
}

/// The base of a SELECT. There is none where over groups or windows HAVING, a call, a result column or ORDER BY names something else
/// than the values of the rows that it is computed on, or beside windows WHERE something else than columns of the tables. (SELECT)
pub fn base_of(
    alloc: Global,
    input: &Input,
    select: &Select,
    order: &[Key],
) -> Result<Option<Base>, AllocError>
    requires { AreTableJoins (input_from input.now) }
    ensures { IfOk result (λ base. MatchOption base
        (¬ AreOfRows (input_from input.now) (select_of select.now) (order_terms (map key_of order.now)))
        (λ base. (made : IsMadeOver input.now (select_of select.now) (map key_of order.now) (plan_data base.plan) (map term base.columns.items))
        × (made.columns ≡ base.read.items))) }
{
    let read = columns_read(alloc, input, select, order)?;
    let found = plan_of(alloc, input, read.as_slice(), &select.condition)?;
    let below = match found {
        None => return Ok(None),
        Some(below) => below,
    };
    let over = rows_over(alloc, read, &select.grouping, below)?;
    let taken = match over {
        None => return Ok(None),
        Some(rows) => rows,
    };
    let computed = windows_over(alloc, taken, select.windows.as_slice())?;
    let rows = match computed {
        None => return Ok(None),
        Some(rows) => rows,
    };
    let shown = exprs_over(alloc, rows.read.as_slice(), 0, select.columns.as_slice())?;
    let columns = match shown {
        None => return Ok(None),
        Some(columns) => columns,
    };
    Ok(Some(Base {
        read: rows.read,
        plan: rows.plan,
        columns,
    }))
}
