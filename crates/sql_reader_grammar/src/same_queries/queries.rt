//! Expressions and queries.
ghost use Rattle.std.specs.Prelude.{◌≡◌, IsTrue, map, option_map};
ghost use Rattle.sql_reader_grammar.specs.statement_trees.TreeView.{arm_of, arranged_of, behind_of, core_of, definition_of, expr_of, joined_of, on_of, over_of, query_of, result_of, source_of, sources_of, term_of, window_of};

use crate::same_queries::names::{same_frame, same_names, same_option, same_result_name};
use crate::statement_trees::{
    Arm, CallSuffix, CompoundArm, Expr, JoinCondition, Joined, NamedWindow, OrderingTerm, Over,
    Query, ResultColumn, SelectCore, Source, Sources, Window,
};

#[cycle(sameness)]
fn same_expr(a: &Expr, b: &Expr) -> bool
    ensures { IsTrue result → expr_of a.now ≡ expr_of b.now }
{
    match a {
        Expr::Null => matches!(b, Expr::Null),
        Expr::Number(x) => matches!(b, Expr::Number(y) if x == y),
        Expr::Text(x) => matches!(b, Expr::Text(y) if x == y),
        Expr::Blob(x) => matches!(b, Expr::Blob(y) if x == y),
        Expr::Column(t, x) => matches!(b, Expr::Column(s, y) if same_option(t, s) && x == y),
        Expr::Prefix(op, x) => {
            matches!(b, Expr::Prefix(other, y) if op == other && same_expr(x, y))
        }
        Expr::Binary(op, x, z) => {
            matches!(b, Expr::Binary(other, y, w) if op == other && same_expr(x, y) && same_expr(z, w))
        }
        Expr::Postfix(op, x) => {
            matches!(b, Expr::Postfix(other, y) if op == other && same_expr(x, y))
        }
        Expr::Between(n, x, z, s) => {
            matches!(b, Expr::Between(m, y, w, t) if n == m && same_expr(x, y) && same_expr(z, w) && same_expr(s, t))
        }
        Expr::In(n, x, items) => {
            matches!(b, Expr::In(m, y, others) if n == m && same_expr(x, y) && same_exprs(items.as_slice(), others.as_slice()))
        }
        Expr::InQuery(n, x, q) => {
            matches!(b, Expr::InQuery(m, y, p) if n == m && same_expr(x, y) && same_query(q, p))
        }
        Expr::Exists(q) => matches!(b, Expr::Exists(p) if same_query(q, p)),
        Expr::CountRows(x) => matches!(b, Expr::CountRows(y) if same_behind(x, y)),
        Expr::Call(f, items, x) => {
            matches!(b, Expr::Call(g, others, y) if f == g && same_exprs(items.as_slice(), others.as_slice()) && same_behind(x, y))
        }
        Expr::Case(x, arms, e) => {
            matches!(b, Expr::Case(y, others, f) if same_maybe(x, y) && same_arms(arms.as_slice(), others.as_slice()) && same_maybe(e, f))
        }
    }
}

#[cycle(sameness)]
fn same_exprs(a: &[Expr], b: &[Expr]) -> bool
    ensures { IsTrue result → map expr_of a.now ≡ map expr_of b.now }
{
    let mut rest = b;
    for x in a {
        match rest.split_first() {
            Some((y, later)) if same_expr(x, y) => rest = later,
            _ => return false,
        }
    }
    rest.is_empty()
}

#[cycle(sameness)]
fn same_maybe(a: &Option<Box<Expr>>, b: &Option<Box<Expr>>) -> bool
    ensures { IsTrue result → option_map (λ e. expr_of e.value) a.now ≡ option_map (λ e. expr_of e.value) b.now }
{
    match a {
        None => b.is_none(),
        Some(x) => matches!(b, Some(y) if same_expr(x, y)),
    }
}

#[cycle(sameness)]
fn same_arms(a: &[Arm], b: &[Arm]) -> bool
    ensures { IsTrue result → map arm_of a.now ≡ map arm_of b.now }
{
    let mut rest = b;
    for x in a {
        match rest.split_first() {
            Some((y, later)) if same_arm(x, y) => rest = later,
            _ => return false,
        }
    }
    rest.is_empty()
}

#[cycle(sameness)]
fn same_arm(a: &Arm, b: &Arm) -> bool
    ensures { IsTrue result → arm_of a.now ≡ arm_of b.now }
{
    same_expr(&a.when, &b.when) && same_expr(&a.then, &b.then)
}

#[cycle(sameness)]
fn same_behind(a: &CallSuffix, b: &CallSuffix) -> bool
    ensures { IsTrue result → behind_of a.now ≡ behind_of b.now }
{
    same_maybe(&a.filter, &b.filter) && same_over(&a.over, &b.over)
}

#[cycle(sameness)]
fn same_over(a: &Over, b: &Over) -> bool
    ensures { IsTrue result → over_of a.now ≡ over_of b.now }
{
    match a {
        Over::Absent => matches!(b, Over::Absent),
        Over::Name(x) => matches!(b, Over::Name(y) if x == y),
        Over::Window(x) => matches!(b, Over::Window(y) if same_window(x, y)),
    }
}

#[cycle(sameness)]
fn same_window(a: &Window, b: &Window) -> bool
    ensures { IsTrue result → window_of a.now ≡ window_of b.now }
{
    same_exprs(a.partition.as_slice(), b.partition.as_slice())
        && same_terms(a.order.as_slice(), b.order.as_slice())
        && same_frame(&a.frame, &b.frame)
}

#[cycle(sameness)]
fn same_terms(a: &[OrderingTerm], b: &[OrderingTerm]) -> bool
    ensures { IsTrue result → map term_of a.now ≡ map term_of b.now }
{
    let mut rest = b;
    for x in a {
        match rest.split_first() {
            Some((y, later)) if same_term(x, y) => rest = later,
            _ => return false,
        }
    }
    rest.is_empty()
}

#[cycle(sameness)]
fn same_term(a: &OrderingTerm, b: &OrderingTerm) -> bool
    ensures { IsTrue result → term_of a.now ≡ term_of b.now }
{
    a.direction == b.direction && same_expr(&a.value, &b.value)
}

#[cycle(sameness)]
fn same_result(a: &ResultColumn, b: &ResultColumn) -> bool
    ensures { IsTrue result → result_of a.now ≡ result_of b.now }
{
    match a {
        ResultColumn::All => matches!(b, ResultColumn::All),
        ResultColumn::AllOf(x) => matches!(b, ResultColumn::AllOf(y) if x == y),
        ResultColumn::Value(x, m) => {
            matches!(b, ResultColumn::Value(y, n) if same_result_name(m, n) && same_expr(x, y))
        }
    }
}

#[cycle(sameness)]
fn same_results(a: &[ResultColumn], b: &[ResultColumn]) -> bool
    ensures { IsTrue result → map result_of a.now ≡ map result_of b.now }
{
    let mut rest = b;
    for x in a {
        match rest.split_first() {
            Some((y, later)) if same_result(x, y) => rest = later,
            _ => return false,
        }
    }
    rest.is_empty()
}

#[cycle(sameness)]
fn same_source(a: &Source, b: &Source) -> bool
    ensures { IsTrue result → source_of a.now ≡ source_of b.now }
{
    match a {
        Source::Table(x, m) => { matches!(b, Source::Table(y, n) if x == y && same_option(m, n)) }
        Source::Derived(q, m) => {
            matches!(b, Source::Derived(p, n) if same_option(m, n) && same_query(q, p))
        }
    }
}

#[cycle(sameness)]
fn same_condition(a: &JoinCondition, b: &JoinCondition) -> bool
    ensures { IsTrue result → on_of a.now ≡ on_of b.now }
{
    match a {
        JoinCondition::Always => matches!(b, JoinCondition::Always),
        JoinCondition::On(x) => matches!(b, JoinCondition::On(y) if same_expr(x, y)),
        JoinCondition::Using(x) => match b {
            JoinCondition::Using(y) => same_names(x.as_slice(), y.as_slice()),
            JoinCondition::Always | JoinCondition::On(_) => false,
        },
    }
}

#[cycle(sameness)]
fn same_joined(a: &Joined, b: &Joined) -> bool
    ensures { IsTrue result → joined_of a.now ≡ joined_of b.now }
{
    a.join == b.join
        && same_source(&a.source, &b.source)
        && same_condition(&a.condition, &b.condition)
}

#[cycle(sameness)]
fn same_joins(a: &[Joined], b: &[Joined]) -> bool
    ensures { IsTrue result → map joined_of a.now ≡ map joined_of b.now }
{
    let mut rest = b;
    for x in a {
        match rest.split_first() {
            Some((y, later)) if same_joined(x, y) => rest = later,
            _ => return false,
        }
    }
    rest.is_empty()
}

#[cycle(sameness)]
fn same_sources(a: &Option<Sources>, b: &Option<Sources>) -> bool
    ensures { IsTrue result → option_map sources_of a.now ≡ option_map sources_of b.now }
{
    match a {
        None => b.is_none(),
        Some(x) => {
            matches!(b, Some(y) if same_source(&x.first, &y.first) && same_joins(x.others.as_slice(), y.others.as_slice()))
        }
    }
}

#[cycle(sameness)]
fn same_clause(a: &Option<Expr>, b: &Option<Expr>) -> bool
    ensures { IsTrue result → option_map expr_of a.now ≡ option_map expr_of b.now }
{
    match a {
        None => b.is_none(),
        Some(x) => matches!(b, Some(y) if same_expr(x, y)),
    }
}

#[cycle(sameness)]
fn same_definition(a: &NamedWindow, b: &NamedWindow) -> bool
    ensures { IsTrue result → definition_of a.now ≡ definition_of b.now }
{
    a.name == b.name && same_window(&a.window, &b.window)
}

#[cycle(sameness)]
fn same_definitions(a: &[NamedWindow], b: &[NamedWindow]) -> bool
    ensures { IsTrue result → map definition_of a.now ≡ map definition_of b.now }
{
    let mut rest = b;
    for x in a {
        match rest.split_first() {
            Some((y, later)) if same_definition(x, y) => rest = later,
            _ => return false,
        }
    }
    rest.is_empty()
}

#[cycle(sameness)]
fn same_core(a: &SelectCore, b: &SelectCore) -> bool
    ensures { IsTrue result → core_of a.now ≡ core_of b.now }
{
    if a.distinct != b.distinct || !same_sources(&a.sources, &b.sources) {
        return false;
    }
    if !same_clause(&a.condition, &b.condition) || !same_clause(&a.having, &b.having) {
        return false;
    }
    if !same_definitions(a.windows.as_slice(), b.windows.as_slice()) {
        return false;
    }
    same_results(a.columns.as_slice(), b.columns.as_slice())
        && same_exprs(a.groups.as_slice(), b.groups.as_slice())
}

#[cycle(sameness)]
fn same_arranged(a: &CompoundArm, b: &CompoundArm) -> bool
    ensures { IsTrue result → arranged_of a.now ≡ arranged_of b.now }
{
    a.operator == b.operator && same_core(&a.core, &b.core)
}

#[cycle(sameness)]
fn same_compounds(a: &[CompoundArm], b: &[CompoundArm]) -> bool
    ensures { IsTrue result → map arranged_of a.now ≡ map arranged_of b.now }
{
    let mut rest = b;
    for x in a {
        match rest.split_first() {
            Some((y, later)) if same_arranged(x, y) => rest = later,
            _ => return false,
        }
    }
    rest.is_empty()
}

/// Whether two queries are written alike, token by token but for blanks, comments and parentheses. Where it is so, they are one
/// tree.
#[cycle(sameness)]
pub fn same_query(a: &Query, b: &Query) -> bool
    ensures { IsTrue result → query_of a.now ≡ query_of b.now }
{
    same_core(&a.first, &b.first) && same_compounds(a.others.as_slice(), b.others.as_slice())
}
