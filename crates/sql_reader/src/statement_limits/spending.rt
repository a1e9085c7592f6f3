//! A walk over the SELECTs of a tree, which counts the sources that may still be written.
ghost use Rattle.std.specs.Prelude.{◌≡◌, map, option_map};
ghost use Rattle.sql_reader.specs.statement_limits.Limits.{count_from, count_results};
ghost use Rattle.sql_reader.specs.statement_limits.Spending.{after_arms, after_arranged, after_behind, after_clauses, after_core, after_definitions, after_ends, after_expr, after_exprs, after_from, after_joined, after_maybe, after_on, after_query, after_result, after_results, after_source, after_terms, after_window, spent, without};
ghost use Rattle.sql_reader_syntax.specs.ExprView.{maybe_of};
ghost use Rattle.sql_reader_grammar.specs.statement_trees.TreeView.{arm_of, arranged_of, behind_of, core_of, definition_of, expr_of, joined_of, maybe_from, on_of, query_of, result_of, source_of, sources_of, term_of, window_of};
ghost use Rattle.sql_reader_grammar.specs.Reading.{definitions_of, results_of, terms_of};
ghost use Rattle.sql_reader_syntax.specs.ExprTree.{arms_of, trees_of};

use sql_reader_grammar::{
    Arm, CallSuffix, CompoundArm, Expr, JoinCondition, Joined, MAX_COLUMNS, NamedWindow,
    OrderingTerm, Over, Query, ResultColumn, SelectCore, Source, Sources, Window,
};

/// The most sources of one FROM.
pub const MAX_SOURCES: usize = 8;

/// How many sources may still be written behind so many columns and sources of a SELECT, if these are few enough.
fn spend(left: usize, columns: usize, sources: usize) -> Option<usize>
    ensures { result ≡ spent left columns sources }
{
    if columns > MAX_COLUMNS {
        return None;
    }
    if sources > MAX_SOURCES {
        return None;
    }
    left.checked_sub(sources)
}

/// How many sources stand behind FROM.
#[tactic(auto, using(crate::proofs::lemmas::statement_limits::ShapeLemmas::count_seen))]
fn source_count(sources: &Option<Sources>) -> usize
    ensures { result ≡ count_from (maybe_from (option_map sources_of sources.now)) }
{
    match sources {
        None => 0,
        Some(sources) => sources.others.len() + 1,
    }
}

/// How many result columns a SELECT has.
#[tactic(auto, using(crate::proofs::lemmas::statement_limits::ShapeLemmas::columns_count))]
fn column_count(columns: &[ResultColumn]) -> usize
    ensures { result ≡ count_results (results_of (map result_of columns.now)) }
{
    columns.len()
}

/// How many sources may still be written behind the columns and the sources of a SELECT, without those inside it.
fn behind_own(core: &SelectCore, left: usize) -> Option<usize>
    ensures { result ≡ without left (core_of core.now) }
{
    spend(
        left,
        column_count(&core.columns),
        source_count(&core.sources),
    )
}

#[cycle(walk)]
pub(crate) fn behind_expr(expr: &Expr, left: usize) -> Option<usize>
    ensures { result ≡ after_expr (expr_of expr.now) left }
{
    match expr {
        Expr::Null | Expr::Number(_) | Expr::Text(_) | Expr::Blob(_) | Expr::Column(_, _) => {
            Some(left)
        }
        Expr::Prefix(_, operand) => behind_expr(operand, left),
        Expr::Postfix(_, operand) => behind_expr(operand, left),
        Expr::Binary(_, first, second) => {
            let left = behind_expr(first, left)?;
            behind_expr(second, left)
        }
        Expr::Between(_, value, low, high) => {
            let left = behind_expr(value, left)?;
            let left = behind_expr(low, left)?;
            behind_expr(high, left)
        }
        Expr::In(_, value, members) => {
            let left = behind_expr(value, left)?;
            behind_exprs(members, left)
        }
        Expr::InQuery(_, value, query) => {
            let left = behind_expr(value, left)?;
            behind_query(query, left)
        }
        Expr::Exists(query) => behind_query(query, left),
        Expr::CountRows(behind) => behind_call(behind, left),
        Expr::Call(_, arguments, behind) => {
            let left = behind_exprs(arguments, left)?;
            behind_call(behind, left)
        }
        Expr::Case(operand, arms, otherwise) => {
            let left = behind_boxed(operand, left)?;
            let left = behind_arms(arms, left)?;
            behind_boxed(otherwise, left)
        }
    }
}

#[cycle(walk)]
fn behind_boxed(maybe: &Option<Box<Expr>>, left: usize) -> Option<usize>
    ensures { result ≡ after_maybe (maybe_of (option_map (λ e. expr_of e.value) maybe.now)) left }
{
    match maybe {
        None => Some(left),
        Some(expr) => behind_expr(expr, left),
    }
}

#[cycle(walk)]
fn behind_maybe(maybe: &Option<Expr>, left: usize) -> Option<usize>
    ensures { result ≡ after_maybe (maybe_of (option_map expr_of maybe.now)) left }
{
    match maybe {
        None => Some(left),
        Some(expr) => behind_expr(expr, left),
    }
}

#[cycle(walk)]
fn behind_exprs(exprs: &[Expr], mut left: usize) -> Option<usize>
    ensures { result ≡ after_exprs (trees_of (map expr_of exprs.now)) left }
{
    for expr in exprs {
        left = behind_expr(expr, left)?;
    }
    Some(left)
}

#[cycle(walk)]
fn behind_arms(arms: &[Arm], mut left: usize) -> Option<usize>
    ensures { result ≡ after_arms (arms_of (map arm_of arms.now)) left }
{
    for arm in arms {
        left = behind_expr(&arm.when, left)?;
        left = behind_expr(&arm.then, left)?;
    }
    Some(left)
}

#[cycle(walk)]
fn behind_call(behind: &CallSuffix, left: usize) -> Option<usize>
    ensures { result ≡ after_behind (behind_of behind.now) left }
{
    let left = behind_boxed(&behind.filter, left)?;
    match &behind.over {
        Over::Absent | Over::Name(_) => Some(left),
        Over::Window(window) => behind_window(window, left),
    }
}

#[cycle(walk)]
fn behind_window(window: &Window, left: usize) -> Option<usize>
    ensures { result ≡ after_window (window_of window.now) left }
{
    let left = behind_exprs(&window.partition, left)?;
    behind_terms(&window.order, left)
}

#[cycle(walk)]
pub(crate) fn behind_terms(terms: &[OrderingTerm], mut left: usize) -> Option<usize>
    ensures { result ≡ after_terms (terms_of (map term_of terms.now)) left }
{
    for term in terms {
        left = behind_expr(&term.value, left)?;
    }
    Some(left)
}

#[cycle(walk)]
fn behind_columns(columns: &[ResultColumn], mut left: usize) -> Option<usize>
    ensures { result ≡ after_results (results_of (map result_of columns.now)) left }
{
    for column in columns {
        left = behind_column(column, left)?;
    }
    Some(left)
}

#[cycle(walk)]
fn behind_column(column: &ResultColumn, left: usize) -> Option<usize>
    ensures { result ≡ after_result (result_of column.now) left }
{
    match column {
        ResultColumn::All | ResultColumn::AllOf(_) => Some(left),
        ResultColumn::Value(value, _) => behind_expr(value, left),
    }
}

#[cycle(walk)]
fn behind_source(source: &Source, left: usize) -> Option<usize>
    ensures { result ≡ after_source (source_of source.now) left }
{
    match source {
        Source::Table(_, _) => Some(left),
        Source::Derived(query, _) => behind_query(query, left),
    }
}

#[cycle(walk)]
fn behind_from(sources: &Option<Sources>, left: usize) -> Option<usize>
    ensures { result ≡ after_from (maybe_from (option_map sources_of sources.now)) left }
{
    match sources {
        None => Some(left),
        Some(sources) => behind_sources(sources, left),
    }
}

#[cycle(walk)]
fn behind_sources(sources: &Sources, left: usize) -> Option<usize>
    ensures { result ≡ after_from (sources_of sources.now) left }
{
    let left = behind_source(&sources.first, left)?;
    behind_joined(&sources.others, left)
}

#[cycle(walk)]
fn behind_joined(others: &[Joined], mut left: usize) -> Option<usize>
    ensures { result ≡ after_joined (map joined_of others.now) left }
{
    for joined in others {
        left = behind_source(&joined.source, left)?;
        left = behind_condition(&joined.condition, left)?;
    }
    Some(left)
}

#[cycle(walk)]
fn behind_condition(condition: &JoinCondition, left: usize) -> Option<usize>
    ensures { result ≡ after_on (on_of condition.now) left }
{
    match condition {
        JoinCondition::On(condition) => behind_expr(condition, left),
        JoinCondition::Always | JoinCondition::Using(_) => Some(left),
    }
}

#[cycle(walk)]
fn behind_windows(windows: &[NamedWindow], mut left: usize) -> Option<usize>
    ensures { result ≡ after_definitions (definitions_of (map definition_of windows.now)) left }
{
    for defined in windows {
        left = behind_window(&defined.window, left)?;
    }
    Some(left)
}

#[cycle(walk)]
fn behind_core(core: &SelectCore, left: usize) -> Option<usize>
    ensures { result ≡ after_core (core_of core.now) left }
{
    let left = behind_own(core, left)?;
    let left = behind_columns(&core.columns, left)?;
    let left = behind_from(&core.sources, left)?;
    behind_clauses(core, left)
}

/// Behind WHERE, GROUP BY, HAVING and WINDOW.
#[cycle(walk)]
fn behind_clauses(core: &SelectCore, left: usize) -> Option<usize>
    ensures { result ≡ after_clauses (core_of core.now) left }
{
    let left = behind_maybe(&core.condition, left)?;
    let left = behind_exprs(&core.groups, left)?;
    behind_ends(core, left)
}

/// Behind HAVING and WINDOW.
#[cycle(walk)]
fn behind_ends(core: &SelectCore, left: usize) -> Option<usize>
    ensures { result ≡ after_ends (core_of core.now) left }
{
    let left = behind_maybe(&core.having, left)?;
    behind_windows(&core.windows, left)
}

#[cycle(walk)]
pub(crate) fn behind_query(query: &Query, left: usize) -> Option<usize>
    ensures { result ≡ after_query (query_of query.now) left }
{
    let left = behind_core(&query.first, left)?;
    behind_arranged(&query.others, left)
}

#[cycle(walk)]
fn behind_arranged(others: &[CompoundArm], mut left: usize) -> Option<usize>
    ensures { result ≡ after_arranged (map arranged_of others.now) left }
{
    for arranged in others {
        left = behind_core(&arranged.core, left)?;
    }
    Some(left)
}
