//! The rows of a stream: materialized, or looked up among others.
ghost use Rattle.std.specs.Prelude.{◌≡◌, ◌++◌, ℕ, All, List, MatchResult, map};
ghost use Rattle.values.specs.Row.{Row as RowData, rows_data};
ghost use Rattle.operators_scan.specs.Coming.{IsRooted};
ghost use Rattle.btree.specs.image.Pages.{WhereSteady};
ghost use Rattle.expr.specs.View.{term};
ghost use Rattle.operators_scan.specs.scan.Coming.{Asks};
ghost use Rattle.operators_loops.specs.Basis.{AreStored, Basis, ReadsRows};
ghost use Rattle.logical_plan.specs.answers.Sources.{IsPlanOf};
ghost use Rattle.operators.specs.Left.{plan_of};
ghost use Rattle.operators_results.specs.Coming.{IsComing, IsResultCause};
ghost use Rattle.operators_results.specs.distinct_results.Firsts.{firsts};
ghost use Rattle.logical_plan.specs.answers.Joined.{has_row};

use crate::Results;
use crate::compound_results::sets::{mark_row, no_marks, put_row};
use indexmap::IndexSet;
use operators_scan::Sources;
use pager::{Pager, Source};
use std::alloc::Global;
use values::{Fault, Row, Value};

/// Puts the rows that are still to come behind others.
pub(crate) fn push_rows<S: Source>(
    alloc: Global,
    pager: &mut Pager<S>,
    sources: &Sources<'_>,
    results: Results,
    rows: &mut Vec<Vec<Value>>,
) -> Result<(), Fault>
    requires roots { All (IsRooted pager.old.state.header) sources.now }
    requires planned { IsPlanOf sources.now (plan_of results.op) }
    ensures rows { WhereSteady pager.old.state (λ pages. (on : Basis) (rest : List RowData) (ahead : ℕ) → AreStored pages sources.now on
        → IsComing pages sources.now on results rest ahead
        → MatchResult result
        (λ _. (rows_data rows.new.items ≡ rows_data rows.old.items ++ rest) × Asks on.local pager.old.state ahead pager.new.state 0)
        (IsResultCause on (map term results.columns.items))) }
    ensures reads { ReadsRows result pager.old.state pager.new.state }
{
    let mut results = results;
    let mut row = Vec::new(alloc);
    'rows: while results.next(alloc, pager, sources, &mut row)? {
        rows.push(row)?;
        row = Vec::new(alloc);
    }
    Ok(())
}

/// Puts those of the rows that are still to come into a set that it hasn't yet.
pub(crate) fn put_rows<S: Source>(
    alloc: Global,
    pager: &mut Pager<S>,
    sources: &Sources<'_>,
    results: Results,
    set: &mut IndexSet<Row>,
) -> Result<(), Fault>
    requires roots { All (IsRooted pager.old.state.header) sources.now }
    requires planned { IsPlanOf sources.now (plan_of results.op) }
    ensures rows { WhereSteady pager.old.state (λ pages. (on : Basis) (rest : List RowData) (ahead : ℕ) → AreStored pages sources.now on
        → IsComing pages sources.now on results rest ahead
        → MatchResult result
        (λ _. ((seen : List RowData) → set.old.keys ≡ firsts seen → set.new.keys ≡ firsts (seen ++ rest))
        × Asks on.local pager.old.state ahead pager.new.state 0)
        (IsResultCause on (map term results.columns.items))) }
    ensures reads { ReadsRows result pager.old.state pager.new.state }
{
    let mut results = results;
    let mut row = Vec::new(alloc);
    'rows: while results.next(alloc, pager, sources, &mut row)? {
        row = put_row(alloc, set, row)?;
        // So that a row that is kept has no more memory than its values.
        row.clear();
    }
    Ok(())
}

/// Which rows of a set are equal to one of those that a stream still has to give. None of these is kept.
fn marks_met<S: Source>(
    alloc: Global,
    pager: &mut Pager<S>,
    sources: &Sources<'_>,
    results: &mut Results,
    set: &IndexSet<Row>,
) -> Result<Vec<bool>, Fault>
    requires roots { All (IsRooted pager.old.state.header) sources.now }
    requires planned { IsPlanOf sources.now (plan_of results.old.op) }
    ensures rows { WhereSteady pager.old.state (λ pages. (on : Basis) (rest : List RowData) (ahead : ℕ) → AreStored pages sources.now on
        → IsComing pages sources.now on results.old rest ahead
        → MatchResult result
        (λ marks. (marks.items ≡ map (has_row rest) set.now.keys) × Asks on.local pager.old.state ahead pager.new.state 0)
        (IsResultCause on (map term results.old.columns.items))) }
    ensures reads { ReadsRows result pager.old.state pager.new.state }
{
    let mut marks = no_marks(alloc, set)?;
    let mut row = Vec::new(alloc);
    'rows: while results.next(alloc, pager, sources, &mut row)? {
        let met = Row::from(row);
        mark_row(set, &met, &mut marks);
        row = met.into_values();
    }
    Ok(marks)
}

/// Which rows of a set are equal to one of the rows that are still to come. None of these is kept.
pub(crate) fn met_rows<S: Source>(
    alloc: Global,
    pager: &mut Pager<S>,
    sources: &Sources<'_>,
    results: Results,
    set: &IndexSet<Row>,
) -> Result<Vec<bool>, Fault>
    requires roots { All (IsRooted pager.old.state.header) sources.now }
    requires planned { IsPlanOf sources.now (plan_of results.op) }
    ensures rows { WhereSteady pager.old.state (λ pages. (on : Basis) (rest : List RowData) (ahead : ℕ) → AreStored pages sources.now on
        → IsComing pages sources.now on results rest ahead
        → MatchResult result
        (λ marks. (marks.items ≡ map (has_row rest) set.now.keys) × Asks on.local pager.old.state ahead pager.new.state 0)
        (IsResultCause on (map term results.columns.items))) }
    ensures reads { ReadsRows result pager.old.state pager.new.state }
{
    let mut results = results;
    marks_met(alloc, pager, sources, &mut results, set)
}
