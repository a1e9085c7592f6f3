//! What expressions name: columns, and the answers of inner queries.
ghost use Rattle.std.specs.Prelude.{◌≡◌, ◌++◌, OnOk};
ghost use Rattle.expr.specs.Columns.{columns_of};
ghost use Rattle.expr.specs.Names.{answers_of};
ghost use Rattle.expr.specs.NameView.{named_answer, named_column, names_of, names_of_all, names_of_arms};
ghost use Rattle.expr.specs.Contract.{trees, arm_trees};
ghost use Rattle.expr.specs.View.{term};

use crate::{Arm, Expr};
use std::alloc::AllocError;

/// What is looked for in an expression.
#[derive(Clone, Copy)]
enum Named {
    /// The columns.
    Columns,
    /// The inner queries whose answers are members.
    Answers,
}

impl Named {
    fn push_column(self, at: usize, out: &mut Vec<usize>) -> Result<(), AllocError>
        ensures { OnOk result (out.new.items ≡ out.old.items ++ named_column self at) }
    {
        if let Named::Columns = self {
            out.push(at)?;
        }
        Ok(())
    }

    fn push_answer(self, at: usize, out: &mut Vec<usize>) -> Result<(), AllocError>
        ensures { OnOk result (out.new.items ≡ out.old.items ++ named_answer self at) }
    {
        if let Named::Answers = self {
            out.push(at)?;
        }
        Ok(())
    }

    /// Puts what an expression names at the end of a list, in the order of the mentions.
    #[cycle(names)]
    fn push(self, expr: &Expr, out: &mut Vec<usize>) -> Result<(), AllocError>
        ensures { OnOk result (out.new.items ≡ out.old.items ++ names_of self (term expr.now)) }
    {
        match expr {
            Expr::Literal(_) => Ok(()),
            Expr::Column(column) => self.push_column(*column, out),
            Expr::Call(_, a) => self.push(a, out),
            Expr::Arithmetic(_, a, b)
            | Expr::Compare(_, a, b)
            | Expr::Concat(a, b)
            | Expr::Is(a, b)
            | Expr::And(a, b)
            | Expr::Or(a, b)
            | Expr::NullIf(a, b)
            | Expr::Like(a, b) => {
                self.push(a, out)?;
                self.push(b, out)
            }
            Expr::Between(x, a, b) => {
                self.push(x, out)?;
                self.push(a, out)?;
                self.push(b, out)
            }
            Expr::In(x, items) => {
                self.push(x, out)?;
                self.push_all(items, out)
            }
            Expr::Member(x, _) => self.push(x, out),
            Expr::InAnswer(x, answer) => {
                self.push(x, out)?;
                self.push_answer(*answer, out)
            }
            Expr::Coalesce(items) => self.push_all(items, out),
            Expr::Case(None, arms, otherwise) => {
                self.push_arms(arms, out)?;
                self.push(otherwise, out)
            }
            Expr::Case(Some(operand), arms, otherwise) => {
                self.push(operand, out)?;
                self.push_arms(arms, out)?;
                self.push(otherwise, out)
            }
        }
    }

    #[cycle(names)]
    fn push_all(self, items: &[Expr], out: &mut Vec<usize>) -> Result<(), AllocError>
        ensures { OnOk result (out.new.items ≡ out.old.items ++ names_of_all self (trees items.now)) }
    {
        for item in items {
            self.push(item, out)?;
        }
        Ok(())
    }

    #[cycle(names)]
    fn push_arms(self, arms: &[Arm], out: &mut Vec<usize>) -> Result<(), AllocError>
        ensures { OnOk result (out.new.items ≡ out.old.items ++ names_of_arms self (arm_trees arms.now)) }
    {
        for arm in arms {
            self.push(&arm.when, out)?;
            self.push(&arm.then, out)?;
        }
        Ok(())
    }
}

/// Puts the columns that an expression names at the end of a list, in the order of their mentions, one for each.
pub fn columns(expr: &Expr, out: &mut Vec<usize>) -> Result<(), AllocError>
    ensures { OnOk result (out.new.items ≡ out.old.items ++ columns_of (term expr.now)) }
{
    Named::Columns.push(expr, out)
}

/// Puts the places of the inner queries whose answers an expression names at the end of a list, in the order of their mentions,
/// one for each.
pub fn answers(expr: &Expr, out: &mut Vec<usize>) -> Result<(), AllocError>
    ensures { OnOk result (out.new.items ≡ out.old.items ++ answers_of (term expr.now)) }
{
    Named::Answers.push(expr, out)
}
