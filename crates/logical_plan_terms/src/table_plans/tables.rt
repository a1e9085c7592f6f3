//! The plan of FROM and WHERE.
ghost use Rattle.std.specs.Prelude.{◌≡◌, false, IfOk, List, MatchOption, map, ⊤};
ghost use Rattle.expr.specs.Term as expr_term;
ghost use Rattle.logical_plan_terms.specs.Over.{IsOver};
ghost use Rattle.logical_plan.specs.JoinPlan.{IsEarlyPlan, IsWrittenPlan, has_right};
ghost use Rattle.logical_plan.specs.PlanView.{plan_data};
ghost use Rattle.logical_plan.specs.Stands.{AreTestsOf, tested};
ghost use Rattle.expr.specs.View.{term};
ghost use Rattle.logical_plan_terms.specs.table_plans.Input.{from_of, input_from};
ghost use Rattle.logical_plan_terms.specs.table_plans.Parted.{AreParted};
ghost use Rattle.logical_plan_terms.specs.table_plans.Planned.{AreOnOver, IsPlanOver};

use crate::conjuncts_over;
use crate::table_plans::columns::{columns_behind, columns_left};
use crate::table_plans::early::tests_placed;
use crate::table_plans::inputs::{Input, JoinedTable};
use crate::table_plans::written::{some_flagged, written_behind};
use expr::Expr;
use logical_plan::{Nested, Plan};
use std::alloc::{AllocError, Global};

/// The rows of a plan on which these conditions are true.
fn kept(alloc: Global, plan: Plan, tests: Vec<Expr>) -> Result<Plan, AllocError>
    ensures { IfOk result (λ kept. plan_data kept ≡ tested (map term tests.items) (plan_data plan)) }
{
    if tests.is_empty() {
        return Ok(plan);
    }
    let below = Box::new(alloc, plan)?;
    Ok(Plan::Filter(below, tests))
}

/// The plan of tables that are joined by inner and LEFT joins, of which these columns are read, with conditions beside each ON. There
/// is none exactly where an ON names a column that isn't read of the tables up to its own, or the answer of an inner query.
fn plan_behind(
    alloc: Global,
    tables: &[JoinedTable],
    read: &[usize],
    tests: Vec<Expr>,
) -> Result<Option<Plan>, AllocError>
    requires parted { AreParted (from_of tables.now) read.now }
    requires early { has_right (from_of tables.now) ≡ false }
    ensures over { IfOk result (λ plan. MatchOption plan (¬ AreOnOver read.now (from_of tables.now)) (λ _. AreOnOver read.now (from_of tables.now))) }
    ensures plan { IfOk result (λ plan. MatchOption plan ⊤ (λ plan. (conditions : List expr_term.Term)
        → AreTestsOf read.now (map term tests.items) conditions → IsEarlyPlan read.now (from_of tables.now) conditions (plan_data plan))) }
{
    let [before @ .., last] = tables else {
        let plan = kept(alloc, Plan::SingleRow, tests)?;
        return Ok(Some(plan));
    };
    let columns = columns_behind(alloc, before, read)?;
    let first = columns_left(read, columns.len());
    let on = match conjuncts_over(alloc, read, 0, last.condition)? {
        None => return Ok(None),
        Some(on) => on,
    };
    let padded = last.is_padded();
    let parts = tests_placed(alloc, padded, on, tests, first.len())?;
    let left = match plan_behind(alloc, before, first, parts.before)? {
        None => return Ok(None),
        Some(left) => left,
    };
    let nested = Nested {
        table: last.table,
        columns,
        tests: parts.here,
        padded,
        search: None,
    };
    let joined = Plan::NestedLoop(Box::new(alloc, left)?, nested);
    let plan = kept(alloc, joined, parts.above)?;
    Ok(Some(plan))
}

/// The plan of tables of which these columns are read, each joined as it is written, and of conditions above them. There is none
/// exactly where an ON names a column that isn't read of the tables up to its own, or the answer of an inner query.
fn plan_as_written(
    alloc: Global,
    tables: &[JoinedTable],
    read: &[usize],
    tests: Vec<Expr>,
) -> Result<Option<Plan>, AllocError>
    requires { AreParted (from_of tables.now) read.now }
    ensures over { IfOk result (λ plan. MatchOption plan (¬ AreOnOver read.now (from_of tables.now)) (λ _. AreOnOver read.now (from_of tables.now))) }
    ensures plan { IfOk result (λ plan. MatchOption plan ⊤ (λ plan. (conditions : List expr_term.Term)
        → AreTestsOf read.now (map term tests.items) conditions → IsWrittenPlan read.now (from_of tables.now) conditions (plan_data plan))) }
{
    let below = match written_behind(alloc, tables, read)? {
        None => return Ok(None),
        Some(below) => below,
    };
    let plan = kept(alloc, below, tests)?;
    Ok(Some(plan))
}

/// The plan of a FROM and WHERE of which these columns are read. There is none exactly where WHERE or an ON names another
/// column, or the answer of an inner query. (SELECT, "Determination of input data", "WHERE clause filtering")
pub fn plan_of(
    alloc: Global,
    input: &Input,
    read: &[usize],
    condition: &Expr,
) -> Result<Option<Plan>, AllocError>
    requires parted { AreParted (input_from input.now) read.now }
    ensures over { IfOk result (λ plan. MatchOption plan (¬ (IsOver read.now 0 (term condition.now) × AreOnOver read.now (input_from input.now)))
        (λ _. IsOver read.now 0 (term condition.now) × AreOnOver read.now (input_from input.now))) }
    ensures plan { IfOk result (λ plan. MatchOption plan ⊤ (λ plan. IsPlanOver input.now read.now (term condition.now) (plan_data plan))) }
{
    let tests = match conjuncts_over(alloc, read, 0, condition)? {
        None => return Ok(None),
        Some(tests) => tests,
    };
    let tables = input.tables.as_slice();
    if some_flagged(tables) {
        return plan_as_written(alloc, tables, read, tests);
    }
    plan_behind(alloc, tables, read, tests)
}
