//! The trees of CASE.
ghost use Rattle.sql_reader_grammar.specs.statement_trees.TreeView.{arm_of, expr_of};
ghost use Rattle.std.specs.Prelude.{◌≡◌, IfOk};
ghost use Rattle.sql_reader_syntax.specs.ExprTree.{ExprTree, arms_of};
ghost use Rattle.sql_reader_exprs.specs.window_reader.Views.{arms_of_vec, present_of};

use crate::window_reader::boxed;
use sql_reader_grammar::{Arm, Expr};
use std::alloc::{AllocError, Global};

pub(crate) fn when_then(when: Expr, then: Expr) -> Arm
    ensures { arm_of result ≡ (expr_of when, expr_of then) }
{
    Arm { when, then }
}

pub(crate) fn case(
    alloc: Global,
    operand: Option<Expr>,
    arms: Vec<Arm>,
    otherwise: Option<Expr>,
) -> Result<Expr, AllocError>
    ensures { IfOk result (λ e. expr_of e ≡ ExprTree.Case (present_of operand)
        (arms_of (arms_of_vec arms)) (present_of otherwise)) }
{
    Ok(Expr::Case(boxed(alloc, operand)?, arms, boxed(alloc, otherwise)?))
}
