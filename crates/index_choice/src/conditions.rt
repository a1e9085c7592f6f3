//! Which conjuncts imply a condition of a partial index.
ghost use Rattle.std.specs.Prelude.{◌≡◌, ◌↔◌, IfOk, IsTrue, map};
ghost use Rattle.expr.specs.View.{term};
ghost use Rattle.index_choice.specs.ColumnBounds.{column_of};
ghost use Rattle.index_choice.specs.Conditions as spec;
ghost use Rattle.index_choice.specs.Conditions.{Implies, compares, compares_some, is_column, is_null_literal, not_null_column, null_column};

use crate::comparisons::column_of;
use expr::{Expr, Function};
use expr_types::same_tree;
use semantics_names::laws::same_is_equal;
use std::alloc::{AllocError, Global};
use values::Value;

fn is_null_literal(expr: &Expr) -> bool
    ensures { result ≡ is_null_literal (term expr.now) }
{
    matches!(expr, Expr::Literal(Value::Null))
}

/// The column of `c IS NULL`.
fn null_column(expr: &Expr) -> Option<usize>
    ensures { result ≡ null_column (term expr.now) }
{
    match expr {
        Expr::Is(a, b) if is_null_literal(b) => column_of(a),
        _ => None,
    }
}

/// The column of `c IS NOT NULL`.
fn not_null_column(expr: &Expr) -> Option<usize>
    ensures { result ≡ not_null_column (term expr.now) }
{
    match expr {
        Expr::Call(Function::Not, test) => null_column(test),
        _ => None,
    }
}

fn is_column(column: usize, expr: &Expr) -> bool
    ensures { result ≡ is_column column (column_of (term expr.now)) }
{
    match column_of(expr) {
        Some(other) => other == column,
        None => false,
    }
}

/// Whether an expression is a comparison of a column.
fn compares(column: usize, expr: &Expr) -> bool
    ensures { result ≡ compares column (term expr.now) }
{
    match expr {
        Expr::Compare(_, a, b) => is_column(column, a) || is_column(column, b),
        _ => false,
    }
}

/// Whether a condition says that a column isn't NULL that a conjunct compares.
fn compares_not_null(conjunct: &Expr, condition: &Expr) -> bool
    ensures { result ≡ compares_some (not_null_column (term condition.now)) (term conjunct.now) }
{
    match not_null_column(condition) {
        Some(column) => compares(column, conjunct),
        None => false,
    }
}

/// Whether a conjunct implies a condition: it is the same tree, or a comparison of a column that isn't NULL by the
/// condition. (Partial Indexes, "Queries Using Partial Indexes")
pub fn implies(conjunct: &Expr, condition: &Expr) -> bool
    ensures relation { IsTrue result ↔ Implies (term conjunct.now) (term condition.now) }
    ensures test { result ≡ spec.implies (term conjunct.now) (term condition.now) }
{
    same_is_equal();
    same_tree(conjunct, condition) || compares_not_null(conjunct, condition)
}

/// The places of the conjuncts of which each implies a condition.
pub fn implying(
    alloc: Global,
    conjuncts: &[Expr],
    condition: &Expr,
) -> Result<Vec<usize>, AllocError>
    ensures { IfOk result (λ places. places.items ≡ spec.implying (map term conjuncts.now) (term condition.now)) }
{
    let mut places = Vec::new(alloc);
    for (at, conjunct) in conjuncts.iter().enumerate() {
        if implies(conjunct, condition) {
            places.push(at)?;
        }
    }
    Ok(places)
}
