//! Copies of expressions, in which others may stand for the columns and the answers that are named.
ghost use Rattle.std.specs.Prelude.{◌≡◌, ◌==◌, [], IfOk, map, position, slice_index_or};
ghost use Rattle.values.specs.Row.{rows_data};
ghost use Rattle.expr.specs.CopyView.{answer_in, column_in, copied, copied_all, copied_arms, copied_firsts};
ghost use Rattle.expr.specs.Leaves.{place_in};
ghost use Rattle.expr.specs.Term.{among};
ghost use Rattle.expr.specs.Contract.{arm_trees, trees};
ghost use Rattle.expr.specs.View.{term};

use crate::tree::case_of;
use crate::{Arm, Expr, ValueSet};
use std::alloc::{AllocError, Global};
use values::Value;

/// What a copy of an expression has for the columns and the answers of inner queries that it names.
#[derive(Clone, Copy)]
pub enum Leaves<'a> {
    /// They themselves.
    Same,
    /// The columns, and the values of each inner query. (SQL Language Expressions, "The IN and NOT IN Operators")
    Answered(&'a [Vec<Value>]),
    /// The place of each column among those that are read, and of an inner query no values.
    Placed(&'a [usize]),
}

/// The place of a column among those that are read, if it is one of them.
fn place_among(read: &[usize], column: usize) -> Option<usize>
    ensures { result ≡ position (λ at. at == column) read.now }
{
    read.iter().position(|at| *at == column)
}

/// The place of a column among those that are read, or the place after them.
fn place_of(read: &[usize], column: usize) -> usize
    ensures { result ≡ place_in read.now column }
{
    place_among(read, column).unwrap_or(read.len())
}

/// The values of the inner query at a place, of which there are none past the end.
fn answer_set(alloc: Global, answers: &[Vec<Value>], at: usize) -> Result<Box<ValueSet>, AllocError>
    ensures { IfOk result (λ set. set.value ≡ slice_index_or (rows_data answers.now) at []) }
{
    let set = match answers.get(at) {
        Some(values) => ValueSet::of(alloc, values.as_slice())?,
        None => ValueSet::new(alloc, Vec::new(alloc))?,
    };
    Ok(Box::new(alloc, set)?)
}

/// A copy of a set.
fn set_copy(alloc: Global, set: &ValueSet) -> Result<Box<ValueSet>, AllocError>
    ensures { IfOk result (λ copy. copy.value ≡ set.now) }
{
    let set = set.copied(alloc)?;
    Ok(Box::new(alloc, set)?)
}

impl Leaves<'_> {
    /// What is put for a column.
    fn column(self, at: usize) -> usize
        ensures { result ≡ column_in self.entry at }
    {
        match self {
            Leaves::Same | Leaves::Answered(_) => at,
            Leaves::Placed(read) => place_of(read, at),
        }
    }

    /// Whether a value is among those of an inner query.
    fn among(self, alloc: Global, x: Box<Expr>, at: usize) -> Result<Expr, AllocError>
        ensures { IfOk result (λ e. term e ≡ among (term x.value) (answer_in self.entry at)) }
    {
        match self {
            Leaves::Same => Ok(Expr::InAnswer(x, at)),
            Leaves::Answered(answers) => Ok(Expr::Member(x, answer_set(alloc, answers, at)?)),
            Leaves::Placed(_) => Ok(Expr::In(x, Vec::new(alloc))),
        }
    }

    #[cycle(copy)]
    fn boxed(self, alloc: Global, e: &Expr) -> Result<Box<Expr>, AllocError>
        ensures { IfOk result (λ b. term b.value ≡ copied self.entry (term e.now)) }
    {
        let e = self.copy(alloc, e)?;
        Ok(Box::new(alloc, e)?)
    }

    /// A copy of an expression, with these leaves.
    #[cycle(copy)]
    pub fn copy(self, alloc: Global, e: &Expr) -> Result<Expr, AllocError>
        ensures { IfOk result (λ x. term x ≡ copied self.entry (term e.now)) }
    {
        match e {
            Expr::Literal(v) => Ok(Expr::Literal(v.as_ref().to_value(alloc)?)),
            Expr::Column(at) => Ok(Expr::Column(self.column(*at))),
            Expr::Call(f, a) => Ok(Expr::Call(*f, self.boxed(alloc, a)?)),
            Expr::Arithmetic(op, a, b) => {
                let a = self.boxed(alloc, a)?;
                Ok(Expr::Arithmetic(*op, a, self.boxed(alloc, b)?))
            }
            Expr::Concat(a, b) => Ok(Expr::Concat(self.boxed(alloc, a)?, self.boxed(alloc, b)?)),
            Expr::Compare(op, a, b) => {
                let a = self.boxed(alloc, a)?;
                Ok(Expr::Compare(*op, a, self.boxed(alloc, b)?))
            }
            Expr::Is(a, b) => Ok(Expr::Is(self.boxed(alloc, a)?, self.boxed(alloc, b)?)),
            Expr::And(a, b) => Ok(Expr::And(self.boxed(alloc, a)?, self.boxed(alloc, b)?)),
            Expr::Or(a, b) => Ok(Expr::Or(self.boxed(alloc, a)?, self.boxed(alloc, b)?)),
            Expr::Between(x, a, b) => Ok(Expr::Between(
                self.boxed(alloc, x)?,
                self.boxed(alloc, a)?,
                self.boxed(alloc, b)?,
            )),
            Expr::In(x, items) => Ok(Expr::In(self.boxed(alloc, x)?, self.copy_all(alloc, items)?)),
            Expr::Member(x, set) => Ok(Expr::Member(self.boxed(alloc, x)?, set_copy(alloc, set)?)),
            Expr::InAnswer(x, at) => self.among(alloc, self.boxed(alloc, x)?, *at),
            Expr::Coalesce(items) => Ok(Expr::Coalesce(self.copy_all(alloc, items)?)),
            Expr::Case(operand, arms, otherwise) => {
                let arms = self.copy_arms(alloc, arms)?;
                let otherwise = self.boxed(alloc, otherwise)?;
                match operand {
                    None => Ok(Expr::Case(None, arms, otherwise)),
                    Some(x) => {
                        let x = self.boxed(alloc, x)?;
                        Ok(case_of(x, arms, otherwise))
                    }
                }
            }
            Expr::NullIf(a, b) => Ok(Expr::NullIf(self.boxed(alloc, a)?, self.boxed(alloc, b)?)),
            Expr::Like(a, b) => Ok(Expr::Like(self.boxed(alloc, a)?, self.boxed(alloc, b)?)),
        }
    }

    /// Copies of expressions, in their order, with these leaves.
    #[cycle(copy)]
    pub fn copy_all(self, alloc: Global, items: &[Expr]) -> Result<Vec<Expr>, AllocError>
        ensures each { IfOk result (λ v. map term v.items ≡ map (copied self.entry) (map term items.now)) }
        ensures all { IfOk result (λ v. trees v.items ≡ copied_all self.entry (trees items.now)) }
        ensures firsts { IfOk result (λ v. trees v.items ≡ copied_firsts self.entry (trees items.now)) }
    {
        let mut copies = Vec::with_capacity(alloc, items.len())?;
        for item in items {
            copies.push(self.copy(alloc, item)?)?;
        }
        Ok(copies)
    }

    #[cycle(copy)]
    fn copy_arms(self, alloc: Global, arms: &[Arm]) -> Result<Vec<Arm>, AllocError>
        ensures { IfOk result (λ v. arm_trees v.items ≡ copied_arms self.entry (arm_trees arms.now)) }
    {
        let mut copies = Vec::with_capacity(alloc, arms.len())?;
        for arm in arms {
            let when = self.copy(alloc, &arm.when)?;
            let then = self.copy(alloc, &arm.then)?;
            copies.push(Arm { when, then })?;
        }
        Ok(copies)
    }
}

/// A copy of an expression.
pub fn copy(alloc: Global, e: &Expr) -> Result<Expr, AllocError>
    ensures { IfOk result (λ x. term x ≡ term e.now) }
{
    Leaves::Same.copy(alloc, e)
}

/// Copies of expressions, in their order.
pub fn copy_all(alloc: Global, items: &[Expr]) -> Result<Vec<Expr>, AllocError>
    ensures { IfOk result (λ v. map term v.items ≡ map term items.now) }
{
    Leaves::Same.copy_all(alloc, items)
}
