//! A plan that is run.
ghost use Rattle.std.specs.Prelude.{◌≡◌, ◌<◌, ℕ, [], true, All, IfOk, IfSome, IsTrue, List, MatchResult, map};
ghost use Rattle.values.specs.Datum.{datum_of};
ghost use Rattle.values.specs.Row.{Row};
ghost use Rattle.operators_scan.specs.Coming.{IsRooted};
ghost use Rattle.btree.specs.image.Pages.{WhereSteady};
ghost use Rattle.logical_plan.specs.answers.Answers.{answer_data};
ghost use Rattle.logical_plan.specs.answers.Arms.{ArePlannedOver, arm_data, arms_data, one, work_of_arms};
ghost use Rattle.operators_loops.specs.Basis.{AreStored, Basis, ReadsRows};
ghost use Rattle.logical_plan_queries.specs.Answers.{IsPlannedOver, PlannedData, planned_data, work_of};
ghost use Rattle.operators_runs.specs.execution.Given.{HasAhead, HasAnswered, HasAsked, HasGiven, IsOpenedOf, IsOpenedRun, IsRowCause, IsRunOver, NeedsNone, steps_left};

use crate::execution::columns;
use logical_plan::{Answer, Arm, Arms};
use logical_plan_queries::Planned;
use operators::GatheredRows;
use operators_results::{
    ChainedResults, DistinctResults, LimitOffset, Results, are_all, gathered_rows,
};
use operators_scan::Sources;
use pager::{Pager, Source};
use std::alloc::{AllocError, Global};
use values::{Fault, Value};

/// A plan that is run, and where it stands. (SELECT)
#[derive(Drop)]
pub enum Execution {
    /// Rows in no order, as they are computed.
    Rows(Results),
    /// The same, each once.
    Distinct(DistinctResults),
    /// Rows of SELECTs, of each all before those of the next, as they are computed.
    Chained(ChainedResults),
    /// An answer whose rows are to be gathered.
    Waiting(Answer),
    /// Of the rows that were gathered those that are still to be given.
    Giving(GatheredRows),
}

/// Columns of each row of a table, before the first.
fn columns_opened(alloc: Global, table: usize, places: &[usize]) -> Result<Execution, AllocError>
    ensures { IfOk result (IsOpenedRun (PlannedData.columns table places.now)) }
{
    let arm = columns::arm_of(alloc, table, places)?;
    let results = Results::of_all(alloc, &arm)?;
    Ok(Execution::Rows(results))
}

/// Rows of one SELECT before the first, of which a slice is left.
fn arm_opened(alloc: Global, arm: &Arm, slice: LimitOffset) -> Result<Execution, AllocError>
    ensures { IfOk result (IsOpenedOf (one (arm_data arm.now)) slice) }
{
    if arm.distinct {
        let distinct = DistinctResults::open(alloc, arm, slice)?;
        return Ok(Execution::Distinct(distinct));
    }
    let results = Results::open(alloc, arm, slice)?;
    Ok(Execution::Rows(results))
}

/// Rows of SELECTs that are run one after the other, before the first, where no row depends on others.
fn chained_opened(
    alloc: Global,
    arms: &Arms,
    slice: LimitOffset,
) -> Result<Option<Execution>, AllocError>
    ensures { IfOk result (λ opened. IfSome opened (IsOpenedOf (arms_data arms.now) slice)) }
{
    if !are_all(arms) {
        return Ok(None);
    }
    let chained = ChainedResults::open(alloc, arms, slice)?;
    Ok(Some(Execution::Chained(chained)))
}

/// Rows of SELECTs before the first, of which a slice is left; none where they don't come one by one.
fn arms_opened(
    alloc: Global,
    arms: &Arms,
    slice: LimitOffset,
) -> Result<Option<Execution>, AllocError>
    ensures { IfOk result (λ opened. IfSome opened (IsOpenedOf (arms_data arms.now) slice)) }
{
    match arms {
        Arms::One(arm) => {
            let opened = arm_opened(alloc, arm, slice)?;
            Ok(Some(opened))
        }
        Arms::Joined(_, _, _) => chained_opened(alloc, arms, slice),
    }
}

/// An answer whose rows come one by one, before the first; none where they are gathered. It reads no page.
fn streamed(alloc: Global, answer: &Answer) -> Result<Option<Execution>, AllocError>
    ensures { IfOk result (λ opened. IfSome opened (IsOpenedRun (PlannedData.answer (answer_data answer.now)))) }
{
    match &answer.order {
        Some(_) => Ok(None),
        None => {
            let slice = LimitOffset::new(answer.limit, answer.offset);
            arms_opened(alloc, &answer.arms, slice)
        }
    }
}

/// An answer before its first row, once rows that don't come one by one are gathered. Its faults are those of an operator.
fn answer_begun<S: Source>(
    alloc: Global,
    pager: &mut Pager<S>,
    sources: &Sources<'_>,
    answer: &Answer,
) -> Result<Execution, Fault>
    requires roots { All (IsRooted pager.old.state.header) sources.now }
    requires planned { ArePlannedOver sources.now (arms_data answer.now.arms) }
    ensures rows { WhereSteady pager.old.state (λ pages. MatchResult result
        (λ execution. HasGiven pages sources.now (PlannedData.answer (answer_data answer.now)) execution [])
        (λ e. (on : Basis) → AreStored pages sources.now on → IsRowCause on (PlannedData.answer (answer_data answer.now)) e)) }
    ensures pages { WhereSteady pager.old.state (λ pages. (on : Basis) → AreStored pages sources.now on
        → IfOk result (λ execution. HasAsked pages sources.now on pager.old.state
        (work_of_arms on.w on.db on.sizes (arms_data answer.now.arms)) pager.new.state execution true)) }
    ensures over { IfOk result (IsRunOver sources.now) }
    ensures reads { ReadsRows result pager.old.state pager.new.state }
{
    if let Some(execution) = streamed(alloc, answer)? {
        return Ok(execution);
    }
    let gathered = gathered_rows(alloc, pager, sources, answer)?;
    Ok(Execution::Giving(GatheredRows::new(gathered)))
}

/// An answer whose rows are to be gathered.
fn waiting(answer: Answer) -> Execution
    ensures { IsOpenedRun (PlannedData.answer (answer_data answer)) result }
{
    Execution::Waiting(answer)
}

impl Execution {
    /// A plan before its first row. It reads no page.
    pub fn open(alloc: Global, planned: Planned) -> Result<Execution, AllocError>
        ensures { IfOk result (IsOpenedRun (planned_data planned)) }
    {
        let answer = match planned {
            Planned::Columns(table, places) => {
                let opened = columns_opened(alloc, table, places.as_slice())?;
                return Ok(opened);
            }
            Planned::Answer(answer) => answer,
        };
        match streamed(alloc, &answer)? {
            Some(execution) => Ok(execution),
            None => Ok(waiting(answer)),
        }
    }

    /// A plan before its first row, once rows that don't come one by one are gathered; that asks for no more pages than the work of the
    /// plan, and the calls of `next` for no more than it left. Its faults are `ReadFailed`, `NoMemory`, `Overflow`, and `Changed`, which
    /// comes only where the source no longer has the bytes that were checked.
    pub fn begin<S: Source>(
        alloc: Global,
        pager: &mut Pager<S>,
        sources: &Sources<'_>,
        planned: &Planned,
    ) -> Result<Execution, Fault>
        requires roots { All (IsRooted pager.old.state.header) sources.now }
        requires planned { IsPlannedOver sources.now (planned_data planned.now) }
        ensures rows { WhereSteady pager.old.state (λ pages. MatchResult result
            (λ execution. HasGiven pages sources.now (planned_data planned.now) execution [])
            (λ e. (on : Basis) → AreStored pages sources.now on → IsRowCause on (planned_data planned.now) e)) }
        ensures pages { WhereSteady pager.old.state (λ pages. (on : Basis) → AreStored pages sources.now on
            → IfOk result (λ execution. HasAsked pages sources.now on pager.old.state
            (work_of on.w on.db on.sizes (planned_data planned.now)) pager.new.state execution true)) }
        ensures over { IfOk result (IsRunOver sources.now) }
        ensures reads { ReadsRows result pager.old.state pager.new.state }
    {
        match planned {
            Planned::Columns(table, places) => {
                let execution = columns_opened(alloc, *table, places.as_slice())?;
                Ok(execution)
            }
            Planned::Answer(answer) => answer_begun(alloc, pager, sources, answer),
        }
    }

    /// Puts the next row into `row`, or tells that there is none; all calls together ask for no more pages than the work of the plan,
    /// and none after the last row that LIMIT leaves. It isn't called again after `false` or a fault. Its faults are `ReadFailed`,
    /// `NoMemory`, `Overflow`, and `Changed`, which comes only where the source no longer has the bytes that were checked.
    pub fn next<S: Source>(
        &mut self,
        alloc: Global,
        pager: &mut Pager<S>,
        sources: &Sources<'_>,
        row: &mut Vec<Value>,
    ) -> Result<bool, Fault>
        requires roots { All (IsRooted pager.old.state.header) sources.now }
        requires planned { IsRunOver sources.now self.old }
        ensures rows { WhereSteady pager.old.state (λ pages. (planned : PlannedData) (given : List Row) → HasGiven pages sources.now planned self.old given
            → MatchResult result (λ found. HasAnswered found pages sources.now planned self.new given (map datum_of row.new.items))
            (λ e. (on : Basis) → AreStored pages sources.now on → IsRowCause on planned e)) }
        ensures pages { WhereSteady pager.old.state (λ pages. (on : Basis) (ahead : ℕ) → AreStored pages sources.now on
            → HasAhead pages sources.now on self.old ahead → IfOk result (HasAsked pages sources.now on pager.old.state ahead pager.new.state self.new)) }
        ensures done { NeedsNone self.old → pager.new.state ≡ pager.old.state }
        ensures over { IsRunOver sources.now self.new }
        ensures left { IfOk result (λ found. IsTrue found → steps_left sources.now self.new < steps_left sources.now self.old) }
        ensures reads { ReadsRows result pager.old.state pager.new.state }
    {
        match self {
            Execution::Rows(results) => results.next(alloc, pager, sources, row),
            Execution::Distinct(distinct) => distinct.next(alloc, pager, sources, row),
            Execution::Chained(chained) => chained.next(alloc, pager, sources, row),
            Execution::Waiting(answer) => {
                let rows = gathered_rows(alloc, pager, sources, answer)?;
                let mut left = GatheredRows::new(rows);
                let found = left.next(row);
                *self = Execution::Giving(left);
                Ok(found)
            }
            Execution::Giving(rows) => Ok(rows.next(row)),
        }
    }
}
