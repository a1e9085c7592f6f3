//! The bounds on columns that an expression states.
ghost use Rattle.std.specs.Prelude.{◌≡◌, ◌++◌, option_map, option_to_list};
ghost use Rattle.expr.specs.View.{term};
ghost use Rattle.index_choice.specs.ColumnBounds.{bounds_of, column_bound, column_of, left_bound, turned};
ghost use Rattle.index_choice.specs.View.{bound_term};

use expr::{Comparison, Expr};

/// The side on which a column is bounded: by `=`, by `>` or `>=`, by `<` or `<=`.
#[derive(Clone, Copy, Debug, PartialEq, Eq)]
pub enum Side {
    Equal,
    Lower,
    Upper,
}

/// A comparison of a column with a value, and whether it is one of `>` and `<`. Columns are told by their places in the
/// row of the whole FROM.
#[derive(Clone, Copy)]
pub struct ColumnBound<'e> {
    pub side: Side,
    pub strict: bool,
    pub column: usize,
    pub value: &'e Expr,
}

/// The column that an expression is.
pub(crate) fn column_of(expr: &Expr) -> Option<usize>
    ensures { result ≡ column_of (term expr.now) }
{
    match expr {
        Expr::Column(column) => Some(*column),
        _ => None,
    }
}

/// `e op c` says of c what `c turned(op) e` says.
fn turned(op: Comparison) -> Comparison
    ensures { result ≡ turned op }
{
    match op {
        Comparison::Eq => Comparison::Eq,
        Comparison::Ne => Comparison::Ne,
        Comparison::Lt => Comparison::Gt,
        Comparison::Le => Comparison::Ge,
        Comparison::Gt => Comparison::Lt,
        Comparison::Ge => Comparison::Le,
    }
}

/// The bound that `left op value` says, where the left side is a column.
fn column_bound<'e>(op: Comparison, left: &Expr, value: &'e Expr) -> Option<ColumnBound<'e>>
    ensures { option_map bound_term result ≡ column_bound op (term left.now) (term value.entry.now) }
{
    let column = column_of(left)?;
    let (side, strict) = match op {
        Comparison::Eq => (Side::Equal, false),
        Comparison::Ne => return None,
        Comparison::Lt => (Side::Upper, true),
        Comparison::Le => (Side::Upper, false),
        Comparison::Gt => (Side::Lower, true),
        Comparison::Ge => (Side::Lower, false),
    };
    Some(ColumnBound {
        side,
        strict,
        column,
        value,
    })
}

/// The bounds that an expression says, of its left and of its right side: a comparison bounds either side that is a column by
/// the other side. (The SQLite Query Optimizer Overview, "WHERE Clause Analysis")
pub fn bounds(expr: &Expr) -> (Option<ColumnBound<'_>>, Option<ColumnBound<'_>>)
    ensures left { option_map bound_term result.0 ≡ left_bound (term expr.entry.now) }
    ensures all { option_to_list (option_map bound_term result.0) ++ option_to_list (option_map bound_term result.1) ≡ bounds_of (term expr.entry.now) }
{
    match expr {
        Expr::Compare(op, a, b) => (column_bound(*op, a, b), column_bound(turned(*op), b, a)),
        _ => (None, None),
    }
}
