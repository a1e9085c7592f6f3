//! The terms of IN and EXISTS.
ghost use Rattle.std.specs.Prelude.{◌≡◌, false, IfOk, map};
ghost use Rattle.semantics_names.specs.Expression as spec;
ghost use Rattle.semantics_names.specs.Statement.{answer_at};
ghost use Rattle.expr.specs.View.{term};

use crate::expression_nodes::operators::negated;
use expr::Expr;
use std::alloc::{AllocError, Global};
use values::Value;

/// `x IN (..)` over a list, or NOT IN. (SQL Language Expressions, "The IN and NOT IN Operators")
pub fn among(alloc: Global, not: bool, x: Expr, items: Vec<Expr>) -> Result<Expr, AllocError>
    ensures { IfOk result (λ e. term e ≡ spec.among_items not (term x) (map term items.items)) }
{
    let among = Expr::among(alloc, x, items)?;
    negated(alloc, not, among)
}

/// Whether a value is among those of an inner query, which is told by its place; of none it has no members.
fn member(alloc: Global, x: Expr, answer: Option<usize>) -> Result<Expr, AllocError>
    ensures { IfOk result (λ e. term e ≡ spec.among_answer false (term x) (answer_at answer)) }
{
    let x = Box::new(alloc, x)?;
    match answer {
        Some(at) => Ok(Expr::InAnswer(x, at)),
        None => Ok(Expr::In(x, Vec::new(alloc))),
    }
}

/// `x IN (query)`, or NOT IN. (SQL Language Expressions, "The IN and NOT IN Operators")
pub fn among_answer(
    alloc: Global,
    not: bool,
    x: Expr,
    answer: Option<usize>,
) -> Result<Expr, AllocError>
    ensures { IfOk result (λ e. term e ≡ spec.among_answer not (term x) (answer_at answer)) }
{
    let member = member(alloc, x, answer)?;
    negated(alloc, not, member)
}

/// `EXISTS (query)`. (SQL Language Expressions, "The EXISTS Operator")
pub fn exists(alloc: Global, answer: Option<usize>) -> Result<Expr, AllocError>
    ensures { IfOk result (λ e. term e ≡ spec.exists (answer_at answer)) }
{
    member(alloc, Expr::Literal(Value::Int(1)), answer)
}
