//! The rows of a plan.
ghost use Rattle.std.specs.Prelude.{[], ℕ, All, MatchResult, OnOk};
ghost use Rattle.btree.specs.image.Pages.{WhereSteady};
ghost use Rattle.operators_runs.specs.inner_rows.Over.{BeginsAnswer};
ghost use Rattle.operators_loops.specs.Basis.{AreStored, Basis, ReadsRows};
ghost use Rattle.logical_plan_queries.specs.Answers.{IsAnswerOf, IsPlannedOver, PlannedData, planned_data, work_of};
ghost use Rattle.operators_runs.specs.execution.Given.{HasAhead, HasGiven, IsRowCause, IsRunOver};
ghost use Rattle.operators_scan.specs.scan.Coming.{Asks};
ghost use Rattle.values.specs.Row.{rows_data};
ghost use Rattle.operators_scan.specs.Coming.{IsRooted};

use crate::execution::Execution;
use logical_plan_queries::Planned;
use operators_scan::Sources;
use pager::{Pager, Source};
use std::alloc::Global;
use values::{Fault, Value};

/// All rows that a plan still gives whose first row was not asked for. Its faults are those of an operator.
fn rows_of_run<S: Source>(
    alloc: Global,
    pager: &mut Pager<S>,
    sources: &Sources<'_>,
    running: &mut Execution,
) -> Result<Vec<Vec<Value>>, Fault>
    requires roots { All (IsRooted pager.old.state.header) sources.now }
    requires planned { IsRunOver sources.now running.old }
    ensures rows { WhereSteady pager.old.state (λ pages. (planned : PlannedData) → HasGiven pages sources.now planned running.old []
        → (on : Basis) → AreStored pages sources.now on → MatchResult result
        (λ rows. IsAnswerOf on.w on.db planned (rows_data rows.items))
        (IsRowCause on planned)) }
    ensures pages { WhereSteady pager.old.state (λ pages. (on : Basis) (ahead : ℕ) → AreStored pages sources.now on
        → HasAhead pages sources.now on running.old ahead → OnOk result (Asks on.local pager.old.state ahead pager.new.state 0)) }
    ensures reads { ReadsRows result pager.old.state pager.new.state }
{
    let mut row = Vec::new(alloc);
    let mut rows = Vec::new(alloc);
    'rows: while running.next(alloc, pager, sources, &mut row)? {
        rows.push(row)?;
        row = Vec::new(alloc);
    }
    Ok(rows)
}

/// All rows that a plan gives, within its work. Its faults are those of an operator.
pub fn planned_rows<S: Source>(
    alloc: Global,
    pager: &mut Pager<S>,
    sources: &Sources<'_>,
    planned: Planned,
) -> Result<Vec<Vec<Value>>, Fault>
    requires roots { All (IsRooted pager.old.state.header) sources.now }
    requires planned { IsPlannedOver sources.now (planned_data planned) }
    ensures rows { WhereSteady pager.old.state (λ pages. (on : Basis) → AreStored pages sources.now on → MatchResult result
        (λ rows. IsAnswerOf on.w on.db (planned_data planned) (rows_data rows.items))
        (IsRowCause on (planned_data planned))) }
    ensures pages { WhereSteady pager.old.state (λ pages. (on : Basis) → AreStored pages sources.now on
        → OnOk result (Asks on.local pager.old.state (work_of on.w on.db on.sizes (planned_data planned)) pager.new.state 0)) }
    ensures reads { ReadsRows result pager.old.state pager.new.state }
{
    let mut running = Execution::open(alloc, planned)?;
    rows_of_run(alloc, pager, sources, &mut running)
}

/// One row that a plan gives, or none where it gives none: no row behind the first is asked for. Its faults are those of an operator.
pub(crate) fn planned_row<S: Source>(
    alloc: Global,
    pager: &mut Pager<S>,
    sources: &Sources<'_>,
    planned: Planned,
) -> Result<Vec<Vec<Value>>, Fault>
    requires roots { All (IsRooted pager.old.state.header) sources.now }
    requires planned { IsPlannedOver sources.now (planned_data planned) }
    ensures rows { WhereSteady pager.old.state (λ pages. (on : Basis) → AreStored pages sources.now on → MatchResult result
        (λ rows. BeginsAnswer on (planned_data planned) (rows_data rows.items))
        (IsRowCause on (planned_data planned))) }
    ensures pages { WhereSteady pager.old.state (λ pages. (on : Basis) → AreStored pages sources.now on
        → OnOk result (Asks on.local pager.old.state (work_of on.w on.db on.sizes (planned_data planned)) pager.new.state 0)) }
    ensures reads { ReadsRows result pager.old.state pager.new.state }
{
    let mut running = Execution::open(alloc, planned)?;
    let mut first = Vec::new(alloc);
    let found = running.next(alloc, pager, sources, &mut first)?;
    let mut begun = Vec::new(alloc);
    if !found {
        return Ok(begun);
    }
    begun.push(first)?;
    Ok(begun)
}
