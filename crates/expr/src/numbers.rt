//! Expressions of numbers alone, which are computed in place.
ghost use Rattle.std.specs.Prelude.{◌≡◌, Some, IfSome};
ghost use Rattle.values.specs.Datum.{int};
ghost use Rattle.expr.specs.operations.Operations.{condition};
ghost use Rattle.expr.specs.Contract.{value_on};

use crate::Expr;
use crate::operations::{integer_of, integers_compare};
use values::Value;

/// The number that an expression is on a row, where it has operations on numbers alone; `None` says nothing of it.
#[tactic(auto, unfolding(crate::specs::operations::Operations::arithmetic_of))]
pub(crate) fn number(e: &Expr, row: &[Value]) -> Option<i64>
    ensures { IfSome result (λ n. value_on row.now e.now ≡ Some (int n)) }
{
    match e {
        Expr::Literal(Value::Int(n)) => Some(*n),
        Expr::Column(i) => match row.get(*i) {
            Some(Value::Int(n)) => Some(*n),
            _ => None,
        },
        Expr::Arithmetic(op, a, b) => {
            let x = number(a, row)?;
            let y = number(b, row)?;
            let z = integer_of(*op, x, y)?;
            Some(z)
        }
        _ => None,
    }
}

/// Whether a comparison of such expressions is true on a row; `None` says nothing of the condition.
#[inline(always)]
pub(crate) fn numbers_compare(e: &Expr, row: &[Value]) -> Option<bool>
    ensures { IfSome result (λ b. value_on row.now e.now ≡ Some (condition (Some b))) }
{
    let Expr::Compare(op, a, b) = e else {
        return None;
    };
    let x = number(a, row)?;
    let y = number(b, row)?;
    Some(integers_compare(*op, x, y))
}

/// Whether such an expression equals one of a set of values on a row, which is unknown where one of them is NULL; `None` says
/// nothing of the condition.
#[inline(always)]
pub(crate) fn number_among(e: &Expr, row: &[Value]) -> Option<Option<bool>>
    ensures { IfSome result (λ found. value_on row.now e.now ≡ Some (condition found)) }
{
    let Expr::Member(x, set) = e else {
        return None;
    };
    let number = number(x, row)?;
    Some(set.any_equal_number(number))
}
