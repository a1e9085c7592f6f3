//! Lists of literals, and sets of values.
ghost use Rattle.std.specs.Prelude.{◌≡◌, ◌↔◌, IsTrue};
ghost use Rattle.values.specs.Datum.{datum_of};
ghost use Rattle.expr.specs.Contract.{trees};
ghost use Rattle.expr.specs.Filled.{literals};
ghost use Rattle.expr.specs.Term.{literal};
ghost use Rattle.expr.specs.View.{term};

use expr::{Expr, ValueSet};
use values::Value;

/// Whether an expression is the literal of a value.
fn is_literal_of(item: &Expr, value: &Value) -> bool
    ensures { IsTrue result ↔ term item.now ≡ literal (datum_of value.now) }
{
    matches!(item, Expr::Literal(own) if own == value)
}

/// Whether expressions are the literals of the values of a set, in their order.
pub(crate) fn are_members(items: &[Expr], set: &ValueSet) -> bool
    ensures { IsTrue result ↔ trees items.now ≡ literals set.now }
{
    let mut rest = set.values();
    for item in items {
        match rest.split_first() {
            Some((value, later)) if is_literal_of(item, value) => rest = later,
            _ => return false,
        }
    }
    rest.is_empty()
}

/// Whether two sets have the same literals, in the same order.
pub(crate) fn same_members(a: &ValueSet, b: &ValueSet) -> bool
    ensures { IsTrue result ↔ literals a.now ≡ literals b.now }
{
    a.is_same(b)
}
