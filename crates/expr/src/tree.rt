//! Expressions.
ghost use Rattle.std.specs.Prelude.{◌≡◌, IfOk, IsTrue, map};
ghost use Rattle.values.specs.Datum.{datum_of};
ghost use Rattle.expr.specs.Contract.{trees};
ghost use Rattle.expr.specs.Filled.{literal_value, literals};
ghost use Rattle.expr.specs.Term.{among, choice, choice_of, iif, if_null, literal};
ghost use Rattle.expr.specs.View.{term, arms as arms_of, arm_terms};

use crate::operations::{Arithmetic, Comparison, Function};
use crate::value_sets::ValueSet;
use std::alloc::{AllocError, Global};
use values::Value;

/// An expression over the columns of one row and the answers of inner queries. (SQL Language Expressions)
#[cycle(tree)]
#[derive(Drop)]
pub enum Expr {
    Literal(Value),
    /// A column by its place in the row, from 0.
    Column(usize),
    Call(Function, Box<Expr>),
    Arithmetic(Arithmetic, Box<Expr>, Box<Expr>),
    Concat(Box<Expr>, Box<Expr>),
    Compare(Comparison, Box<Expr>, Box<Expr>),
    Is(Box<Expr>, Box<Expr>),
    And(Box<Expr>, Box<Expr>),
    Or(Box<Expr>, Box<Expr>),
    /// The value, the lower bound, the upper bound.
    Between(Box<Expr>, Box<Expr>, Box<Expr>),
    In(Box<Expr>, Vec<Expr>),
    /// IN a list of values, which is the same as IN of their literals.
    Member(Box<Expr>, Box<ValueSet>),
    /// The value, and the inner query whose values are the members, by its place.
    InAnswer(Box<Expr>, usize),
    /// The first that is not NULL; `ifnull` is this of two.
    Coalesce(Vec<Expr>),
    NullIf(Box<Expr>, Box<Expr>),
    /// The text, the pattern.
    Like(Box<Expr>, Box<Expr>),
    /// The operand if there is one, the arms, and what stands behind ELSE, which is NULL where none is written.
    Case(Option<Box<Expr>>, Vec<Arm>, Box<Expr>),
}

/// WHEN and THEN of a CASE.
#[cycle(tree)]
#[derive(Drop)]
pub struct Arm {
    pub when: Expr,
    pub then: Expr,
}

// A CASE with an operand.
pub(crate) fn case_of(operand: Box<Expr>, arms: Vec<Arm>, otherwise: Box<Expr>) -> Expr
    ensures { term result ≡ choice_of (term operand.value) (arms_of (map arm_terms arms.items)) (term otherwise.value) }
{
    Expr::Case(Some(operand), arms, otherwise)
}

// A CASE without one.
fn case(arms: Vec<Arm>, otherwise: Box<Expr>) -> Expr
    ensures { term result ≡ choice (arms_of (map arm_terms arms.items)) (term otherwise.value) }
{
    Expr::Case(None, arms, otherwise)
}

// WHEN and THEN.
fn when_then(when: Expr, then: Expr) -> Arm
    ensures { arm_terms result ≡ (term when, term then) }
{
    Arm { when, then }
}

/// Whether an expression is a literal.
fn is_literal(e: &Expr) -> bool
    ensures { IsTrue result → term e.now ≡ literal (literal_value (term e.now)) }
{
    matches!(e, Expr::Literal(_))
}

/// Whether expressions are literals alone.
fn are_literals(items: &[Expr]) -> bool
    ensures { IsTrue result → trees items.now ≡ literals (map (λ e. literal_value (term e)) items.now) }
{
    for item in items {
        if !is_literal(item) {
            return false;
        }
    }
    true
}

/// The value of a literal, and NULL of another expression.
fn literal_value(e: Expr) -> Value
    ensures { datum_of result ≡ literal_value (term e) }
{
    match e {
        Expr::Literal(value) => value,
        _ => Value::Null,
    }
}

/// The values of literals.
fn literal_values(alloc: Global, items: Vec<Expr>) -> Result<Vec<Value>, AllocError>
    ensures { IfOk result (λ values. map datum_of values.items ≡ map (λ e. literal_value (term e)) items.items) }
{
    let mut values = Vec::with_capacity(alloc, items.len())?;
    for item in items {
        values.push(literal_value(item))?;
    }
    Ok(values)
}

/// The set of the values of literals.
fn literal_set(alloc: Global, items: Vec<Expr>) -> Result<Box<ValueSet>, AllocError>
    ensures { IfOk result (λ set. set.value ≡ map (λ e. literal_value (term e)) items.items) }
{
    let values = literal_values(alloc, items)?;
    let set = ValueSet::new(alloc, values)?;
    Ok(Box::new(alloc, set)?)
}

impl Expr {
    /// `x IN (items)`; of literals alone, IN the set of their values. (SQL Language Expressions, "The IN and NOT IN Operators")
    pub fn among(alloc: Global, x: Expr, items: Vec<Expr>) -> Result<Expr, AllocError>
        ensures { IfOk result (λ expr. term expr ≡ among (term x) (trees items.items)) }
    {
        let x = Box::new(alloc, x)?;
        if !are_literals(items.as_slice()) {
            return Ok(Expr::In(x, items));
        }
        let set = literal_set(alloc, items)?;
        Ok(Expr::Member(x, set))
    }

    /// `iif(condition, then, otherwise)`. (Built-In Scalar SQL Functions, "iif(B1,V1,...)")
    pub fn iif(
        alloc: Global,
        condition: Expr,
        then: Expr,
        otherwise: Expr,
    ) -> Result<Expr, AllocError>
        ensures { IfOk result (λ expr. term expr ≡ iif (term condition) (term then) (term otherwise)) }
    {
        let mut arms = Vec::new(alloc);
        arms.push(when_then(condition, then))?;
        Ok(case(arms, Box::new(alloc, otherwise)?))
    }

    /// `ifnull(first, second)`. (Built-In Scalar SQL Functions, "ifnull(X,Y)")
    pub fn if_null(alloc: Global, first: Expr, second: Expr) -> Result<Expr, AllocError>
        ensures { IfOk result (λ expr. term expr ≡ if_null (term first) (term second)) }
    {
        let mut items = Vec::new(alloc);
        items.push(first)?;
        items.push(second)?;
        Ok(Expr::Coalesce(items))
    }
}
