//! The names of a SELECT after its FROM.
ghost use Rattle.std.specs.Prelude.{◌≡◌, map, option_map};
ghost use Rattle.sql_reader_syntax.specs.ExprView.{maybe_of};
ghost use Rattle.expr.specs.Term as t;
ghost use Rattle.sql_reader_grammar.specs.Reading.{definitions_of, results_of, terms_of};
ghost use Rattle.semantics_names.specs.Outcome.{followed};
ghost use Rattle.semantics_names.specs.Statement as spec;
ghost use Rattle.resolver_terms.specs.Outcome.{Gives};
ghost use Rattle.resolver_terms.specs.SelectView.{aggregate_of, grouping_of};
ghost use Rattle.expr.specs.View.{term};
ghost use Rattle.resolver_selects.specs.BehindView.{core_behind};
ghost use Rattle.resolver_selects.specs.Groups.{has_groups};
ghost use Rattle.resolver_selects.specs.NamedView.{core_data};
ghost use Rattle.sql_reader_grammar.specs.statement_trees.TreeView as trees;

use crate::behind::{Behind, Clauses, Input, behind_groups};
use crate::select_clauses::{condition, keys};
use crate::window_names::Defined;
use expr::Expr;
use resolver_exprs::{Columns, Groups, InnerQueries, Scope, first_aggregates, parts_behind_groups};
use resolver_terms::{Aggregate, Grouping, Key, Select};
use sql_reader_grammar as written;
use sql_reader_grammar::SelectCore;
use std::alloc::Global;
use values::Fault;

/// A SELECT behind its FROM, with its names.
#[derive(Drop)]
pub struct NamedSelect {
    pub select: Select,
    /// The names of its result columns.
    pub names: Vec<String>,
    pub order: Vec<Key>,
    /// The windows that it names, used or not.
    pub defined: Vec<Defined>,
}

fn named(distinct: bool, condition: Expr, grouping: Option<Grouping>, behind: Behind) -> NamedSelect
    ensures { core_data result ≡ core_behind distinct (term condition) (option_map grouping_of grouping) behind }
{
    let shown = behind.shown;
    NamedSelect {
        select: Select {
            condition,
            grouping,
            windows: behind.calls,
            columns: shown.columns,
            distinct,
        },
        names: shown.names,
        order: shown.order,
        defined: behind.defined,
    }
}

// A SELECT with GROUP BY or an aggregate has groups.
fn has_groups(by: &[Expr], aggregates: &[Aggregate]) -> bool
    ensures { result ≡ has_groups (map term by.now) (map aggregate_of aggregates.now) }
{
    !by.is_empty() || !aggregates.is_empty()
}

// A SELECT over groups, behind its WHERE and GROUP BY. The fault is one of `condition` and of `behind_groups`.
fn grouped<I: InnerQueries>(
    alloc: Global,
    inner: &I,
    clauses: &Clauses<'_>,
    scope: &Scope,
    test: Expr,
    by: Vec<Expr>,
    aggregates: Vec<Aggregate>,
) -> Result<NamedSelect, Fault>
    ensures { let answers = I.answers inner.now in
        Gives core_data result
        (followed (spec.grouped answers scope.now (map term by.items) (map aggregate_of aggregates.items)
        (maybe_of (option_map trees.expr_of clauses.now.having.now)))
        (spec.behind_groups answers scope.now clauses.now.distinct (results_of (map trees.result_of clauses.now.columns.now))
        (terms_of (map trees.term_of clauses.now.order.now)) (map (λ e. trees.expr_of e.now) clauses.now.parts.now)
        (definitions_of (map trees.definition_of clauses.now.windows.now)) (term test))) }
{
    let groups = Groups {
        inner,
        scope,
        by: by.as_slice(),
        aggregates: aggregates.as_slice(),
    };
    let having = condition(alloc, inner, &groups, clauses.having)?;
    let input = Input {
        place: &groups,
        by: Some(by.as_slice()),
        width: by.len() + aggregates.len(),
    };
    let behind = behind_groups(alloc, inner, clauses, scope, &input)?;
    let grouping = Grouping {
        by,
        aggregates,
        having,
    };
    Ok(named(clauses.distinct, test, Some(grouping), behind))
}

// A SELECT without groups, behind its WHERE. The fault is one of `behind_groups`.
fn ungrouped<I: InnerQueries>(
    alloc: Global,
    inner: &I,
    clauses: &Clauses<'_>,
    scope: &Scope,
    test: Expr,
) -> Result<NamedSelect, Fault>
    ensures { Gives core_data result
        (spec.behind_groups (I.answers inner.now) scope.now clauses.now.distinct (results_of (map trees.result_of clauses.now.columns.now))
        (terms_of (map trees.term_of clauses.now.order.now)) (map (λ e. trees.expr_of e.now) clauses.now.parts.now)
        (definitions_of (map trees.definition_of clauses.now.windows.now)) (term test) (spec.ungrouped scope.now)) }
{
    let input = Input {
        place: &Columns { scope },
        by: None,
        width: scope.len(),
    };
    let behind = behind_groups(alloc, inner, clauses, scope, &input)?;
    Ok(named(clauses.distinct, test, None, behind))
}

// A SELECT behind its WHERE and GROUP BY. The fault is one of `grouped` and of `ungrouped`.
fn behind_keys<I: InnerQueries>(
    alloc: Global,
    inner: &I,
    clauses: &Clauses<'_>,
    scope: &Scope,
    test: Expr,
    by: Vec<Expr>,
    aggregates: Vec<Aggregate>,
) -> Result<NamedSelect, Fault>
    ensures { let answers = I.answers inner.now in
        Gives core_data result
        (followed (spec.input_of answers scope.now (map term by.items) (map aggregate_of aggregates.items)
        (maybe_of (option_map trees.expr_of clauses.now.having.now)))
        (spec.behind_groups answers scope.now clauses.now.distinct (results_of (map trees.result_of clauses.now.columns.now))
        (terms_of (map trees.term_of clauses.now.order.now)) (map (λ e. trees.expr_of e.now) clauses.now.parts.now)
        (definitions_of (map trees.definition_of clauses.now.windows.now)) (term test))) }
{
    if has_groups(by.as_slice(), aggregates.as_slice()) {
        return grouped(alloc, inner, clauses, scope, test, by, aggregates);
    }
    ungrouped(alloc, inner, clauses, scope, test)
}

/// A SELECT behind its FROM. The fault is one of its expressions; `WrongPlace` of a number alone in GROUP BY; `DuplicateName`
/// where two windows have one name; `BadFrame` where a window isn't defined, or a distance of a frame is negative; `Limit` where
/// there are too many result columns; or `NoMemory`. (SELECT; Window Functions)
pub fn select<I: InnerQueries>(
    alloc: Global,
    inner: &I,
    scope: &Scope,
    core: &SelectCore,
    order: &[written::OrderingTerm],
) -> Result<NamedSelect, Fault>
    ensures { Gives core_data result
        (spec.core_of (I.answers inner.now) scope.now (trees.core_of core.now) (terms_of (map trees.term_of order.now))) }
{
    let rows = Columns { scope };
    let test = condition(alloc, inner, &rows, &core.condition)?;
    let by = keys(alloc, inner, scope, core.groups.as_slice())?;
    let parts = parts_behind_groups(alloc, core, order)?;
    let aggregates = first_aggregates(alloc, inner, &rows, parts.as_slice())?;
    let clauses = Clauses {
        distinct: core.distinct,
        columns: core.columns.as_slice(),
        having: &core.having,
        windows: core.windows.as_slice(),
        order,
        parts: parts.as_slice(),
    };
    behind_keys(alloc, inner, &clauses, scope, test, by, aggregates)
}
