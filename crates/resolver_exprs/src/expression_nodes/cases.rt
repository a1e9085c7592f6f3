//! The terms of CASE.
ghost use Rattle.std.specs.Prelude.{◌≡◌, IfOk, map, option_map};
ghost use Rattle.semantics_names.specs.Expression as spec;
ghost use Rattle.expr.specs.View.{arm_terms, term};

use expr::{Arm, Expr};
use std::alloc::{AllocError, Global};

// A CASE with an operand.
fn case_of(operand: Box<Expr>, arms: Vec<Arm>, otherwise: Box<Expr>) -> Expr
    ensures { term result ≡ spec.case (Some (term operand.value)) (map arm_terms arms.items) (term otherwise.value) }
{
    Expr::Case(Some(operand), arms, otherwise)
}

// A CASE without one.
pub(crate) fn bare_case(arms: Vec<Arm>, otherwise: Box<Expr>) -> Expr
    ensures { term result ≡ spec.case None (map arm_terms arms.items) (term otherwise.value) }
{
    Expr::Case(None, arms, otherwise)
}

/// A CASE with an operand or without. (SQL Language Expressions, "The CASE expression")
pub fn case(
    alloc: Global,
    operand: Option<Expr>,
    arms: Vec<Arm>,
    otherwise: Expr,
) -> Result<Expr, AllocError>
    ensures { IfOk result (λ e. term e ≡ spec.case (option_map term operand) (map arm_terms arms.items) (term otherwise)) }
{
    let otherwise = Box::new(alloc, otherwise)?;
    match operand {
        None => Ok(bare_case(arms, otherwise)),
        Some(x) => {
            let x = Box::new(alloc, x)?;
            Ok(case_of(x, arms, otherwise))
        }
    }
}

/// WHEN and THEN of a CASE.
pub fn when_then(when: Expr, then: Expr) -> Arm
    ensures { arm_terms result ≡ (term when, term then) }
{
    Arm { when, then }
}
