//! The rows of a stream, of which the first in order are kept.
ghost use Rattle.std.specs.Prelude.{◌≡◌, ◌++◌, ℕ, All, List, MatchResult, OnOk, map};
ghost use Rattle.values.specs.Row.{Row};
ghost use Rattle.operators_scan.specs.Coming.{IsRooted};
ghost use Rattle.btree.specs.image.Pages.{WhereSteady};
ghost use Rattle.expr.specs.View.{term};
ghost use Rattle.operators_scan.specs.scan.Coming.{Asks};
ghost use Rattle.operators_loops.specs.Basis.{AreStored, Basis, ReadsRows};
ghost use Rattle.logical_plan.specs.answers.Arms.{ArePlannedOver};
ghost use Rattle.logical_plan.specs.answers.Sources.{IsPlanOf};
ghost use Rattle.operators.specs.Left.{plan_of};
ghost use Rattle.operators_results.specs.Coming.{IsComing, IsResultCause};
ghost use Rattle.operators_results.specs.compound_results.Compounds.{IsArmsCause};
ghost use Rattle.operators_results.specs.compound_results.InTurn.{AreComing, arms_of};
ghost use Rattle.windows_groups.specs.FirstView.{FewAreKept, KeepsFirst};
ghost use Rattle.windows_groups.specs.distinct_rows.OnceView.{FewAreKeptOnce, KeepsOnce};

use crate::Results;
use crate::compound_results::ArmsInTurn;
use operators_scan::Sources;
use pager::{Pager, Source};
use std::alloc::Global;
use values::Fault;
use windows_groups::{DistinctInOrder, FirstInOrder, ResultKey};

/// The rows that SELECTs still have to give, of which the first in order are kept.
fn push_coming<S: Source>(
    alloc: Global,
    pager: &mut Pager<S>,
    sources: &Sources<'_>,
    arms: &mut ArmsInTurn,
    order: &[ResultKey],
    first: &mut FirstInOrder,
) -> Result<(), Fault>
    requires roots { All (IsRooted pager.old.state.header) sources.now }
    requires planned { ArePlannedOver sources.now (arms_of arms.old) }
    ensures rows { WhereSteady pager.old.state (λ pages. (on : Basis) (rest : List Row) (ahead : ℕ) → AreStored pages sources.now on
        → AreComing pages sources.now on arms.old rest ahead
        → MatchResult result
        (λ _. ((all : List Row) → KeepsFirst order.now first.old all → KeepsFirst order.now first.new (all ++ rest))
        × Asks on.local pager.old.state ahead pager.new.state 0)
        (IsArmsCause on (arms_of arms.old))) }
    ensures most { first.new.most ≡ first.old.most }
    ensures few { FewAreKept first.old → OnOk result (FewAreKept first.new) }
    ensures reads { ReadsRows result pager.old.state pager.new.state }
{
    let mut row = Vec::new(alloc);
    'rows: while arms.next(alloc, pager, sources, &mut row)? {
        row = first.push(alloc, order, row)?;
        // So that a row that is kept has no more memory than its values.
        row.clear();
    }
    Ok(())
}

/// The rows that are still to come of SELECTs, of which the first in order are kept.
pub(crate) fn push_arms<S: Source>(
    alloc: Global,
    pager: &mut Pager<S>,
    sources: &Sources<'_>,
    arms: ArmsInTurn,
    order: &[ResultKey],
    first: &mut FirstInOrder,
) -> Result<(), Fault>
    requires roots { All (IsRooted pager.old.state.header) sources.now }
    requires planned { ArePlannedOver sources.now (arms_of arms) }
    ensures rows { WhereSteady pager.old.state (λ pages. (on : Basis) (rest : List Row) (ahead : ℕ) → AreStored pages sources.now on
        → AreComing pages sources.now on arms rest ahead
        → MatchResult result
        (λ _. ((all : List Row) → KeepsFirst order.now first.old all → KeepsFirst order.now first.new (all ++ rest))
        × Asks on.local pager.old.state ahead pager.new.state 0)
        (IsArmsCause on (arms_of arms))) }
    ensures most { first.new.most ≡ first.old.most }
    ensures few { FewAreKept first.old → OnOk result (FewAreKept first.new) }
    ensures reads { ReadsRows result pager.old.state pager.new.state }
{
    let mut arms = arms;
    push_coming(alloc, pager, sources, &mut arms, order, first)
}

/// The rows that are still to come, of which the first different ones in order are kept. Its faults are those of an operator.
pub(crate) fn push_distinct<S: Source>(
    alloc: Global,
    pager: &mut Pager<S>,
    sources: &Sources<'_>,
    results: Results,
    order: &[ResultKey],
    first: &mut DistinctInOrder,
) -> Result<(), Fault>
    requires roots { All (IsRooted pager.old.state.header) sources.now }
    requires planned { IsPlanOf sources.now (plan_of results.op) }
    ensures rows { WhereSteady pager.old.state (λ pages. (on : Basis) (rest : List Row) (ahead : ℕ) → AreStored pages sources.now on
        → IsComing pages sources.now on results rest ahead
        → MatchResult result
        (λ _. ((came : List Row) → KeepsOnce order.now first.old came → KeepsOnce order.now first.new (came ++ rest))
        × Asks on.local pager.old.state ahead pager.new.state 0)
        (IsResultCause on (map term results.columns.items))) }
    ensures most { first.new.most ≡ first.old.most }
    ensures few { FewAreKeptOnce first.old → OnOk result (FewAreKeptOnce first.new) }
    ensures reads { ReadsRows result pager.old.state pager.new.state }
{
    let mut results = results;
    let mut row = Vec::new(alloc);
    'rows: while results.next(alloc, pager, sources, &mut row)? {
        row = first.push(alloc, order, row)?;
        // So that a row that is kept has no more memory than its values.
        row.clear();
    }
    Ok(())
}
