//! What a SELECT computes over the rows of FROM, or of groups.
ghost use Rattle.std.specs.Prelude.{◌≡◌, IfOk, MatchOption, Option, false, map, option_map, string_bytes, true};
ghost use Rattle.expr.specs.Term as t;
ghost use Rattle.sql_reader_grammar.specs.Reading.{definitions_of, results_of, terms_of};
ghost use Rattle.semantics.specs.Query.{Grouping};
ghost use Rattle.semantics_names.specs.Places.{windows_say};
ghost use Rattle.semantics_names.specs.Statement as spec;
ghost use Rattle.resolver_terms.specs.Outcome.{Gives};
ghost use Rattle.resolver_terms.specs.SelectView.{call_of, key_of};
ghost use Rattle.expr.specs.View.{term};
ghost use Rattle.resolver_exprs.specs.scopes.ResultView.{result_of};
ghost use Rattle.resolver_selects.specs.BehindView.{core_behind, core_shown, input_of};
ghost use Rattle.sql_reader_grammar.specs.statement_trees.TreeView as trees;
ghost use Rattle.resolver_selects.specs.window_names.DefinedView.{defined_of};

use crate::result_columns::result_columns;
use crate::select_clauses::{are_distinct, defined_windows};
use crate::window_calls::{Windowed, first_calls};
use crate::window_names::Defined;
use expr::Expr as Term;
use resolver_exprs::{InnerQueries, Place, ResultColumn, Scope, keys};
use resolver_terms::{Key, WindowCall};
use sql_reader_grammar as written;
use sql_reader_grammar::{Expr, NamedWindow};
use std::alloc::{AllocError, Global};
use values::Fault;

/// The most result columns of a SELECT.
const MAX_COLUMNS: usize = 100;

/// The result columns of a SELECT, and its ORDER BY.
#[derive(Drop)]
pub(crate) struct Shown {
    pub(crate) columns: Vec<Term>,
    pub(crate) names: Vec<String>,
    pub(crate) order: Vec<Key>,
}

/// What a SELECT computes over the rows of FROM, or of groups.
#[derive(Drop)]
pub(crate) struct Behind {
    /// The windows that it names.
    pub(crate) defined: Vec<Defined>,
    /// The calls over windows.
    pub(crate) calls: Vec<WindowCall>,
    pub(crate) shown: Shown,
}

/// What a SELECT computes over the rows of FROM, or of groups, as it is written.
#[derive(Clone, Copy)]
pub(crate) struct Clauses<'a> {
    pub(crate) distinct: bool,
    pub(crate) columns: &'a [written::ResultColumn],
    pub(crate) having: &'a Option<Expr>,
    pub(crate) windows: &'a [NamedWindow],
    pub(crate) order: &'a [written::OrderingTerm],
    /// The parts of the expressions that are computed over groups, where there are groups.
    pub(crate) parts: &'a [&'a Expr],
}

/// The rows of FROM, or of groups.
#[derive(Drop)]
pub(crate) struct Input<'a, P> {
    /// What is said of an expression over such a row.
    pub(crate) place: &'a P,
    /// The expressions of GROUP BY, where there are groups.
    pub(crate) by: Option<&'a [Term]>,
    /// How many values such a row has.
    pub(crate) width: usize,
}

// The terms and the names of result columns.
fn split(alloc: Global, results: Vec<ResultColumn>) -> Result<(Vec<Term>, Vec<String>), AllocError>
    ensures { IfOk result (λ r. (map term r.0.items ≡ map (λ c. c.term) (map result_of results.items))
        × (map (λ n. string_bytes n) r.1.items ≡ map (λ c. c.name) (map result_of results.items))) }
{
    let mut columns = Vec::new(alloc);
    let mut names = Vec::new(alloc);
    for result in results {
        columns.push(result.term)?;
        names.push(result.name)?;
    }
    Ok((columns, names))
}

// The rows that the expressions of ORDER BY speak of; behind DISTINCT there are none.
fn rows<P>(place: &P, distinct: bool) -> Option<&P>
    ensures { MatchOption result (distinct ≡ true) (λ rows. (distinct ≡ false) × (rows.now ≡ place.now)) }
{
    if distinct { None } else { Some(place) }
}

// ORDER BY. The fault is one of `keys`.
fn sort_keys<I: InnerQueries, P: Place>(
    alloc: Global,
    inner: &I,
    place: &P,
    distinct: bool,
    names: &[String],
    order: &[written::OrderingTerm],
) -> Result<Vec<Key>, Fault>
    ensures { Gives (λ v. map key_of v.items) result (spec.keys_of (map (λ n. string_bytes n) names.now)
        (spec.on_row (I.answers inner.now) distinct (P.meaning place.now)) (terms_of (map trees.term_of order.now))) }
{
    keys(alloc, inner, rows(place, distinct), names, order)
}

// The result columns and ORDER BY, where the windows are known. The fault is `Limit` where there are too many columns, or one of
// `result_columns` and of `keys`.
fn columns_and_order<I: InnerQueries, P: Place>(
    alloc: Global,
    clauses: &Clauses<'_>,
    scope: &Scope,
    place: &Windowed<'_, I, P>,
    by: Option<&[Term]>,
) -> Result<Shown, Fault>
    ensures { (condition : t.Term) (grouping : Option Grouping)
        → let answers = I.answers place.now.inner.now in
        let says = P.meaning place.now.input.now in
        let defined = map defined_of place.now.defined.now in
        let calls = map call_of place.now.calls.now in
        let input = input_of says (option_map (λ terms. map term terms.now) by.entry) place.now.width grouping in
        Gives (core_shown clauses.now.distinct condition grouping defined calls) result
        (spec.shown answers scope.now clauses.now.distinct (results_of (map trees.result_of clauses.now.columns.now))
        (terms_of (map trees.term_of clauses.now.order.now)) (map (λ e. trees.expr_of e.now) clauses.now.parts.now)
        condition input defined calls (windows_say answers says defined place.now.width calls)) }
{
    let results = result_columns(alloc, place.inner, place, scope, by, clauses.columns)?;
    if results.len() > MAX_COLUMNS {
        return Err(Fault::Limit);
    }
    let (columns, names) = split(alloc, results)?;
    let order = sort_keys(
        alloc,
        place.inner,
        place,
        clauses.distinct,
        names.as_slice(),
        clauses.order,
    )?;
    Ok(Shown {
        columns,
        names,
        order,
    })
}

/// What a SELECT computes over the rows of FROM, or of groups. The fault is `DuplicateName` where two windows have one name,
/// `Limit` where there are too many result columns; one of `window`, `first_calls`, `result_columns` and `keys`; or `NoMemory`.
/// (SELECT, "Generation of the set of result rows"; Window Functions)
pub(crate) fn behind_groups<I: InnerQueries, P: Place>(
    alloc: Global,
    inner: &I,
    clauses: &Clauses<'_>,
    scope: &Scope,
    input: &Input<'_, P>,
) -> Result<Behind, Fault>
    ensures { (condition : t.Term) (grouping : Option Grouping)
        → let by = option_map (λ terms. map term terms.now) input.now.by in
        Gives (core_behind clauses.now.distinct condition grouping) result
        (spec.behind_groups (I.answers inner.now) scope.now clauses.now.distinct (results_of (map trees.result_of clauses.now.columns.now))
        (terms_of (map trees.term_of clauses.now.order.now)) (map (λ e. trees.expr_of e.now) clauses.now.parts.now)
        (definitions_of (map trees.definition_of clauses.now.windows.now)) condition
        (input_of (P.meaning input.now.place.now) by input.now.width grouping)) }
{
    if !are_distinct(clauses.windows) {
        return Err(Fault::DuplicateName);
    }
    let defined = defined_windows(alloc, inner, input.place, clauses.windows)?;
    let calls = first_calls(alloc, inner, input.place, defined.as_slice(), clauses.parts)?;
    let place = Windowed {
        inner,
        input: input.place,
        defined: defined.as_slice(),
        width: input.width,
        calls: calls.as_slice(),
    };
    let shown = columns_and_order(alloc, clauses, scope, &place, input.by)?;
    Ok(Behind {
        defined,
        calls,
        shown,
    })
}
