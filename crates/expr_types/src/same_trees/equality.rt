//! Whether two expressions are one tree.
ghost use Rattle.std.specs.Prelude.{◌≡◌, ◌↔◌, IsTrue, map};
ghost use Rattle.expr.specs.Contract.{trees, arm_trees};
ghost use Rattle.expr.specs.View.{term};

use crate::same_trees::members::{are_members, same_members};
use expr::{Arm, Expr};

/// Whether two expressions are one tree, node by node.
#[cycle(equality)]
pub fn same_tree(a: &Expr, b: &Expr) -> bool
    ensures { IsTrue result ↔ term a.now ≡ term b.now }
{
    match a {
        Expr::Literal(v) => matches!(b, Expr::Literal(w) if v == w),
        Expr::Column(i) => matches!(b, Expr::Column(j) if i == j),
        Expr::Call(f, x) => matches!(b, Expr::Call(g, y) if f == g && same_tree(x, y)),
        Expr::Arithmetic(op, x, z) => {
            matches!(b, Expr::Arithmetic(other, y, w) if op == other && same_tree(x, y) && same_tree(z, w))
        }
        Expr::Compare(op, x, z) => {
            matches!(b, Expr::Compare(other, y, w) if op == other && same_tree(x, y) && same_tree(z, w))
        }
        Expr::Concat(x, z) => matches!(b, Expr::Concat(y, w) if same_tree(x, y) && same_tree(z, w)),
        Expr::Is(x, z) => matches!(b, Expr::Is(y, w) if same_tree(x, y) && same_tree(z, w)),
        Expr::And(x, z) => matches!(b, Expr::And(y, w) if same_tree(x, y) && same_tree(z, w)),
        Expr::Or(x, z) => matches!(b, Expr::Or(y, w) if same_tree(x, y) && same_tree(z, w)),
        Expr::NullIf(x, z) => matches!(b, Expr::NullIf(y, w) if same_tree(x, y) && same_tree(z, w)),
        Expr::Like(x, z) => matches!(b, Expr::Like(y, w) if same_tree(x, y) && same_tree(z, w)),
        Expr::Between(x, z, s) => {
            matches!(b, Expr::Between(y, w, t) if same_tree(x, y) && same_tree(z, w) && same_tree(s, t))
        }
        Expr::In(x, items) => match b {
            Expr::In(y, others) => same_tree(x, y) && same_trees(items, others),
            // the values may stand in a set
            Expr::Member(y, set) => same_tree(x, y) && are_members(items, set),
            // a list is no answer of a query
            Expr::InAnswer(_, _) => false,
            _ => false,
        },
        Expr::Member(x, set) => match b {
            Expr::In(y, items) => same_tree(x, y) && are_members(items, set),
            Expr::Member(y, other) => same_tree(x, y) && same_members(set, other),
            Expr::InAnswer(_, _) => false,
            _ => false,
        },
        Expr::InAnswer(x, k) => match b {
            Expr::InAnswer(y, j) => k == j && same_tree(x, y),
            Expr::In(_, _) => false,
            Expr::Member(_, _) => false,
            _ => false,
        },
        Expr::Coalesce(items) => matches!(b, Expr::Coalesce(others) if same_trees(items, others)),
        Expr::Case(None, arms, e) => {
            matches!(b, Expr::Case(None, others, f) if same_arms(arms, others) && same_tree(e, f))
        }
        Expr::Case(Some(x), arms, e) => {
            matches!(b, Expr::Case(Some(y), others, f) if same_tree(x, y) && same_arms(arms, others) && same_tree(e, f))
        }
    }
}

#[cycle(equality)]
fn same_trees(a: &[Expr], b: &[Expr]) -> bool
    ensures { IsTrue result ↔ trees a.now ≡ trees b.now }
{
    let mut rest = b;
    for x in a {
        match rest.split_first() {
            Some((y, later)) if same_tree(x, y) => rest = later,
            _ => return false,
        }
    }
    rest.is_empty()
}

#[cycle(equality)]
fn same_arms(a: &[Arm], b: &[Arm]) -> bool
    ensures { IsTrue result ↔ arm_trees a.now ≡ arm_trees b.now }
{
    let mut rest = b;
    for x in a {
        match rest.split_first() {
            Some((y, later)) if same_tree(&x.when, &y.when) && same_tree(&x.then, &y.then) => rest =
                later,
            _ => return false,
        }
    }
    rest.is_empty()
}

/// Whether two lists of expressions are the same.
pub fn same_tree_lists(a: &[Expr], b: &[Expr]) -> bool
    ensures { IsTrue result ↔ map term a.now ≡ map term b.now }
{
    same_trees(a, b)
}
