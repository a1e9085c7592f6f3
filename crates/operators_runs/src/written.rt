//! The rows of a plan, written as lines.
ghost use Rattle.std.specs.Prelude.{◌≡◌, ◌-◌, ◌^◌, [], ℕ, All, IfErr, IfOk, MatchResult, OnOk, length, min};
ghost use Rattle.values.specs.Fault.{Counts};
ghost use Rattle.values.specs.Sink.{Writes};
ghost use Rattle.explain.specs.Text.{rows_text};
ghost use Rattle.pager.specs.Calls.{ReadsPages};
ghost use Rattle.operators_scan.specs.Coming.{IsRooted};
ghost use Rattle.btree.specs.image.Pages.{WhereSteady};
ghost use Rattle.operators_scan.specs.scan.Coming.{Asks};
ghost use Rattle.operators_loops.specs.Basis.{AreStored, Basis};
ghost use Rattle.logical_plan_queries.specs.Answers.{IsPlannedOver, PlannedData, planned_data, work_of};
ghost use Rattle.operators_runs.specs.Faults.{IsRunFault};
ghost use Rattle.operators_runs.specs.Runs.{WritesAnswer, WritesBeginning};
ghost use Rattle.operators_runs.specs.execution.Given.{HasAhead, HasGiven, IsRunOver};

use crate::execution::Execution;
use explain::values_text;
use logical_plan_queries::Planned;
use operators::GatheredRows;
use operators_scan::Sources;
use pager::{Pager, Source};
use std::alloc::Global;
use values::{Fault, Sink};

/// Writes each row of a plan that is run, whose first row was not asked for, as a line once it is computed, and counts the rows.
/// Its faults are those of a run.
fn write_each<S: Source, W: Sink>(
    alloc: Global,
    pager: &mut Pager<S>,
    sources: &Sources<'_>,
    execution: &mut Execution,
    out: &mut W,
) -> Result<u64, Fault>
    requires roots { All (IsRooted pager.old.state.header) sources.now }
    requires planned { IsRunOver sources.now execution.old }
    ensures rows { WhereSteady pager.old.state (λ pages. (planned : PlannedData) → HasGiven pages sources.now planned execution.old [] → MatchResult result
        (WritesAnswer pages sources.now planned (W.facts out.old) (W.facts out.new))
        (WritesBeginning pages sources.now planned (W.facts out.old) (W.facts out.new))) }
    ensures pages { WhereSteady pager.old.state (λ pages. (on : Basis) (ahead : ℕ) → AreStored pages sources.now on
        → HasAhead pages sources.now on execution.old ahead → OnOk result (Asks on.local pager.old.state ahead pager.new.state 0)) }
    ensures only { IfErr result IsRunFault }
    ensures reads { ReadsPages result pager.old.state pager.new.state }
    ensures writes { Counts Fault.WriteFailed result (W.facts out.old).failures (W.facts out.new).failures }
{
    let mut row = Vec::new(alloc);
    let mut count = 0u64;
    'rows: while execution.next(alloc, pager, sources, &mut row)? {
        values_text(row.as_slice(), out)?;
        count = count.saturating_add(1);
    }
    Ok(count)
}

/// Writes rows that were gathered as lines, each of which is dropped as soon as it is written, while its memory is still at hand: rows
/// in order lie far apart. It counts them; its one fault is `WriteFailed`, after a beginning of the rows' text.
fn write_gathered<W: Sink>(rows: &mut GatheredRows, out: &mut W) -> Result<u64, Fault>
    ensures counted { IfOk result (λ n. n ≡ min (length rows.old) (2 ^ 64 - 1)) }
    ensures only { IfErr result (λ e. e ≡ Fault.WriteFailed) }
    ensures writes { Writes (rows_text rows.old) result (W.facts out.old) (W.facts out.new) }
{
    let mut written = 0u64;
    'lines: while let Some(row) = rows.take() {
        values_text(row.as_slice(), out)?;
        written = written.saturating_add(1);
    }
    Ok(written)
}

/// Writes the rows of a plan as lines, as they are computed where they come one by one, and counts them. Its faults are those of a
/// run.
pub(crate) fn write_rows_of<S: Source, W: Sink>(
    alloc: Global,
    pager: &mut Pager<S>,
    sources: &Sources<'_>,
    planned: &Planned,
    out: &mut W,
) -> Result<u64, Fault>
    requires roots { All (IsRooted pager.old.state.header) sources.now }
    requires planned { IsPlannedOver sources.now (planned_data planned.now) }
    ensures rows { WhereSteady pager.old.state (λ pages. MatchResult result
        (WritesAnswer pages sources.now (planned_data planned.now) (W.facts out.old) (W.facts out.new))
        (WritesBeginning pages sources.now (planned_data planned.now) (W.facts out.old) (W.facts out.new))) }
    ensures pages { WhereSteady pager.old.state (λ pages. (on : Basis) → AreStored pages sources.now on
        → OnOk result (Asks on.local pager.old.state (work_of on.w on.db on.sizes (planned_data planned.now)) pager.new.state 0)) }
    ensures only { IfErr result IsRunFault }
    ensures reads { ReadsPages result pager.old.state pager.new.state }
    ensures writes { Counts Fault.WriteFailed result (W.facts out.old).failures (W.facts out.new).failures }
{
    match Execution::begin(alloc, pager, sources, planned)? {
        Execution::Giving(mut rows) => write_gathered(&mut rows, out),
        mut execution => write_each(alloc, pager, sources, &mut execution, out),
    }
}
