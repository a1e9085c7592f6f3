//! The terms of operators.
ghost use Rattle.std.specs.Prelude.{◌≡◌, IfOk};
ghost use Rattle.expr.specs.Term as t;
ghost use Rattle.semantics_names.specs.Expression as spec;
ghost use Rattle.expr.specs.View.{term};

use expr::{Arithmetic, Comparison, Expr, Function};
use sql_reader_syntax::{BinaryOperator, PostfixOperator, PrefixOperator};
use std::alloc::{AllocError, Global};
use values::Value;

/// A function of one value.
pub(crate) fn call(alloc: Global, function: Function, x: Expr) -> Result<Expr, AllocError>
    ensures { IfOk result (λ e. term e ≡ t.call function (term x)) }
{
    Ok(Expr::Call(function, Box::new(alloc, x)?))
}

/// NOT, where it is written.
pub(crate) fn negated(alloc: Global, not: bool, x: Expr) -> Result<Expr, AllocError>
    ensures { IfOk result (λ e. term e ≡ spec.negated not (term x)) }
{
    if not {
        call(alloc, Function::Not, x)
    } else {
        Ok(x)
    }
}

/// Whether a value is NULL.
fn is_null(alloc: Global, x: Expr) -> Result<Expr, AllocError>
    ensures { IfOk result (λ e. term e ≡ spec.is_null (term x)) }
{
    let null = Box::new(alloc, Expr::Literal(Value::Null))?;
    Ok(Expr::Is(Box::new(alloc, x)?, null))
}

/// An operator before its operand. (SQL Language Expressions, "Operators, and Parse-Affecting Attributes")
pub fn prefix(alloc: Global, op: PrefixOperator, x: Expr) -> Result<Expr, AllocError>
    ensures { IfOk result (λ e. term e ≡ spec.prefix op (term x)) }
{
    match op {
        PrefixOperator::Not => call(alloc, Function::Not, x),
        PrefixOperator::Minus => call(alloc, Function::Neg, x),
        PrefixOperator::Plus => Ok(x),
        PrefixOperator::BitNot => call(alloc, Function::BitNot, x),
    }
}

/// An operator behind its operand. (SQL Language Expressions, "Operators, and Parse-Affecting Attributes")
pub fn postfix(alloc: Global, op: PostfixOperator, x: Expr) -> Result<Expr, AllocError>
    ensures { IfOk result (λ e. term e ≡ spec.postfix op (term x)) }
{
    let x = is_null(alloc, x)?;
    match op {
        PostfixOperator::IsNull => Ok(x),
        PostfixOperator::NotNull => negated(alloc, true, x),
    }
}

/// An operator between its operands. (SQL Language Expressions, "Operators, and Parse-Affecting Attributes")
pub fn binary(alloc: Global, op: BinaryOperator, x: Expr, y: Expr) -> Result<Expr, AllocError>
    ensures { IfOk result (λ e. term e ≡ spec.binary op (term x) (term y)) }
{
    let x = Box::new(alloc, x)?;
    let y = Box::new(alloc, y)?;
    match op {
        BinaryOperator::Or => Ok(Expr::Or(x, y)),
        BinaryOperator::And => Ok(Expr::And(x, y)),
        BinaryOperator::Equal => Ok(Expr::Compare(Comparison::Eq, x, y)),
        BinaryOperator::NotEqual => Ok(Expr::Compare(Comparison::Ne, x, y)),
        BinaryOperator::Is => Ok(Expr::Is(x, y)),
        BinaryOperator::IsNot => negated(alloc, true, Expr::Is(x, y)),
        BinaryOperator::Like => Ok(Expr::Like(x, y)),
        BinaryOperator::NotLike => negated(alloc, true, Expr::Like(x, y)),
        BinaryOperator::Less => Ok(Expr::Compare(Comparison::Lt, x, y)),
        BinaryOperator::LessEqual => Ok(Expr::Compare(Comparison::Le, x, y)),
        BinaryOperator::Greater => Ok(Expr::Compare(Comparison::Gt, x, y)),
        BinaryOperator::GreaterEqual => Ok(Expr::Compare(Comparison::Ge, x, y)),
        BinaryOperator::BitAnd => Ok(Expr::Arithmetic(Arithmetic::BitAnd, x, y)),
        BinaryOperator::BitOr => Ok(Expr::Arithmetic(Arithmetic::BitOr, x, y)),
        BinaryOperator::Add => Ok(Expr::Arithmetic(Arithmetic::Add, x, y)),
        BinaryOperator::Subtract => Ok(Expr::Arithmetic(Arithmetic::Sub, x, y)),
        BinaryOperator::Multiply => Ok(Expr::Arithmetic(Arithmetic::Mul, x, y)),
        BinaryOperator::Divide => Ok(Expr::Arithmetic(Arithmetic::Div, x, y)),
        BinaryOperator::Remainder => Ok(Expr::Arithmetic(Arithmetic::Rem, x, y)),
        BinaryOperator::Concatenate => Ok(Expr::Concat(x, y)),
    }
}

/// `x BETWEEN low AND high`, or NOT BETWEEN. (SQL Language Expressions, "The BETWEEN operator")
pub fn between(alloc: Global, not: bool, x: Expr, low: Expr, high: Expr) -> Result<Expr, AllocError>
    ensures { IfOk result (λ e. term e ≡ spec.between_bounds not (term x) (term low) (term high)) }
{
    let x = Box::new(alloc, x)?;
    let low = Box::new(alloc, low)?;
    let high = Box::new(alloc, high)?;
    negated(alloc, not, Expr::Between(x, low, high))
}
