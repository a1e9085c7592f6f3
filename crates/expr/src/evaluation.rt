//! The value of an expression on a row.
ghost use Rattle.std.specs.Prelude.{◌≡◌, ◌⊎◌, [], Some, None, Err, map, option_map, slice_index_or, IfOk, IfErr, IfSome};
ghost use Rattle.std.specs.Option.{option_and_then, option_copied};
ghost use Rattle.std.specs.Cow.{cow_value};
ghost use Rattle.values.specs.Datum.{Datum, datum_of, null};
ghost use Rattle.expr.specs.operations.Functions.{call_of};
ghost use Rattle.expr.specs.operations.Like.{like_of};
ghost use Rattle.expr.specs.operations.Operations.{any_equal, arithmetic_of, comparison, concat_of, condition, null_if_equal, same, truth};
ghost use Rattle.expr.specs.Filled.{literals};
ghost use Rattle.expr.specs.Term.{among};
ghost use Rattle.expr.specs.View.{term};
ghost use Rattle.expr.specs.Meaning.{eval, exact, Overflows, and_then, both, compared, or_else, or_otherwise, run_all, run_first, run_arms};
ghost use Rattle.expr.specs.operations.Contract.{ComputesAs, Computes};
ghost use Rattle.expr.specs.Contract.{trees, arm_trees, value_on};

use crate::numbers::number;
use crate::operations::{
    Arithmetic, Comparison, Function, Stop, and3, arithmetic, call, comparison, concat,
    from_condition, is_null, is_same, like, null_if_equal, or3, truth,
};
use crate::value_sets::ValueSet;
use crate::{Arm, Expr};
use std::alloc::Global;
use std::borrow::Cow;
use values::{Fault, Value};

/// The value of an expression on a row, whatever stands for results out of range; `Overflow` exactly where an
/// operation that is out of range is reached. The one other fault is `NoMemory`.
pub fn eval(alloc: Global, expr: &Expr, row: &[Value]) -> Result<Value, Fault>
    ensures value { IfOk result (λ v. (w : Datum) → eval w (term expr.now) (map datum_of row.now) ≡ datum_of v) }
    ensures whole { IfOk result (λ _. ¬ Overflows (term expr.now) (map datum_of row.now)) }
    ensures overflow { result ≡ Err Fault.Overflow → Overflows (term expr.now) (map datum_of row.now) }
    ensures faults { IfErr result (λ fault. (fault ≡ Fault.Overflow) ⊎ (fault ≡ Fault.NoMemory)) }
{
    if let Some(n) = number(expr, row) {
        return Ok(Value::Int(n));
    }
    match (Evaluator { alloc, row }).compute(expr) {
        Ok(value) => Ok(value),
        Err(stop) => Err(Fault::from(stop)),
    }
}

// The row that expressions are computed on, and where their values are kept.
#[derive(Drop)]
struct Evaluator<'a> {
    alloc: Global,
    row: &'a [Value],
}

impl<'a> Evaluator<'a> {
    // Each form has a function of its own: a function pays at its entry for all that it may have to hold.
    #[cycle(eval)]
    fn compute(&self, e: &'a Expr) -> Result<Value, Stop>
        ensures { Computes result (value_on self.now.row.now e.now) }
    {
        match e {
            Expr::Literal(v) => self.literal(v),
            Expr::Column(i) => self.column(*i),
            Expr::Call(f, a) => self.function_of(*f, a),
            Expr::Arithmetic(op, a, b) => self.operation(*op, a, b),
            Expr::Concat(a, b) => self.joined(a, b),
            Expr::Compare(op, a, b) => self.comparison_of(*op, a, b),
            Expr::Is(a, b) => self.is_one(a, b),
            Expr::And(a, b) => self.conjunction(a, b),
            Expr::Or(a, b) => self.disjunction(a, b),
            Expr::Between(x, a, b) => self.between(x, a, b),
            Expr::In(x, items) => self.among(x, items),
            Expr::Member(x, set) => self.member(x, set),
            Expr::InAnswer(x, _) => self.unanswered(x),
            Expr::Coalesce(items) => self.first_value(items),
            Expr::Case(None, arms, otherwise) => self.choice(arms, otherwise),
            Expr::Case(Some(x), arms, otherwise) => self.choice_of(x, arms, otherwise),
            Expr::NullIf(a, b) => self.null_if(a, b),
            Expr::Like(a, b) => self.likeness(a, b),
        }
    }

    // A literal.
    fn literal(&self, v: &Value) -> Result<Value, Stop>
        ensures { Computes result (Some (datum_of v.now)) }
    {
        Ok(v.as_ref().to_value(self.alloc)?)
    }

    // The value of a column; NULL where the row is shorter.
    fn column(&self, i: usize) -> Result<Value, Stop>
        ensures { Computes result (Some (slice_index_or (map datum_of self.now.row.now) i null)) }
    {
        match self.row.get(i) {
            Some(v) => Ok(v.as_ref().to_value(self.alloc)?),
            None => Ok(Value::Null),
        }
    }

    // A function of a value.
    #[cycle(eval)]
    fn function_of(&self, f: Function, a: &'a Expr) -> Result<Value, Stop>
        ensures { Computes result (option_and_then (call_of None f) (value_on self.now.row.now a.now)) }
    {
        call(self.alloc, f, &*self.operand(a)?)
    }

    // An operation on two values, most of which stand in the tree or in the row.
    #[cycle(eval)]
    fn operation(&self, op: Arithmetic, a: &'a Expr, b: &'a Expr) -> Result<Value, Stop>
        ensures { Computes result (both (arithmetic_of None op) (value_on self.now.row.now a.now) (value_on self.now.row.now b.now)) }
    {
        match (self.held(a), self.held(b)) {
            (Some(x), Some(y)) => arithmetic(op, x, y),
            _ => self.operation_of_any(op, a, b),
        }
    }

    // An operation on two values.
    #[cycle(eval)]
    fn operation_of_any(&self, op: Arithmetic, a: &'a Expr, b: &'a Expr) -> Result<Value, Stop>
        ensures { Computes result (both (arithmetic_of None op) (value_on self.now.row.now a.now) (value_on self.now.row.now b.now)) }
    {
        arithmetic(op, &*self.operand(a)?, &*self.operand(b)?)
    }

    // One text behind another.
    #[cycle(eval)]
    fn joined(&self, a: &'a Expr, b: &'a Expr) -> Result<Value, Stop>
        ensures { Computes result (both (λ x y. Some (concat_of x y)) (value_on self.now.row.now a.now) (value_on self.now.row.now b.now)) }
    {
        Ok(concat(self.compute(a)?, &*self.operand(b)?)?)
    }

    // A comparison, also of two values that stand in the tree or in the row.
    #[cycle(eval)]
    fn comparison_of(&self, op: Comparison, a: &'a Expr, b: &'a Expr) -> Result<Value, Stop>
        ensures { Computes result (option_map condition (compared op (value_on self.now.row.now a.now) (value_on self.now.row.now b.now))) }
    {
        match (self.held(a), self.held(b)) {
            (Some(x), Some(y)) => Ok(from_condition(comparison(op, x, y))),
            _ => self.comparison_of_any(op, a, b),
        }
    }

    // A comparison.
    #[cycle(eval)]
    fn comparison_of_any(&self, op: Comparison, a: &'a Expr, b: &'a Expr) -> Result<Value, Stop>
        ensures { Computes result (option_map condition (compared op (value_on self.now.row.now a.now) (value_on self.now.row.now b.now))) }
    {
        Ok(from_condition(comparison(op, &*self.operand(a)?, &*self.operand(b)?)))
    }

    // IS.
    #[cycle(eval)]
    fn is_one(&self, a: &'a Expr, b: &'a Expr) -> Result<Value, Stop>
        ensures { Computes result (both (λ x y. Some (condition (Some (same x y)))) (value_on self.now.row.now a.now) (value_on self.now.row.now b.now)) }
    {
        Ok(from_condition(Some(is_same(&*self.operand(a)?, &*self.operand(b)?))))
    }

    // AND.
    #[cycle(eval)]
    fn conjunction(&self, a: &'a Expr, b: &'a Expr) -> Result<Value, Stop>
        ensures { Computes result (and_then (option_map truth (value_on self.now.row.now a.now)) (option_map truth (value_on self.now.row.now b.now))) }
    {
        self.and_then(truth(&*self.operand(a)?), b)
    }

    // OR.
    #[cycle(eval)]
    fn disjunction(&self, a: &'a Expr, b: &'a Expr) -> Result<Value, Stop>
        ensures { Computes result (or_else (option_map truth (value_on self.now.row.now a.now)) (option_map truth (value_on self.now.row.now b.now))) }
    {
        self.or_else(truth(&*self.operand(a)?), b)
    }

    // BETWEEN.
    #[cycle(eval)]
    fn between(&self, x: &'a Expr, a: &'a Expr, b: &'a Expr) -> Result<Value, Stop>
        ensures { Computes result (and_then (compared Comparison.Ge (value_on self.now.row.now x.now) (value_on self.now.row.now a.now))
            (compared Comparison.Le (value_on self.now.row.now x.now) (value_on self.now.row.now b.now))) }
    {
        let x = self.operand(x)?;
        let above = self.compare_with(Comparison::Ge, &*x, a)?;
        self.and_at_most(above, &*x, b)
    }

    // IN.
    #[cycle(eval)]
    fn among(&self, x: &'a Expr, items: &'a [Expr]) -> Result<Value, Stop>
        ensures { Computes result (both (λ v vs. Some (condition (any_equal v vs))) (value_on self.now.row.now x.now)
            (run_all None (map datum_of self.now.row.now) (trees items.now))) }
    {
        let x = self.operand(x)?;
        Ok(from_condition(self.any_equal(&*x, items)?))
    }

    // IN a list of values.
    #[cycle(eval)]
    #[tactic(auto, using(crate::proofs::MemberLemmas::run_literals))]
    fn member(&self, x: &'a Expr, set: &'a ValueSet) -> Result<Value, Stop>
        ensures { Computes result (exact (among (term x.now) (literals set.now)) (map datum_of self.now.row.now)) }
    {
        Ok(from_condition(set.any_equal(&*self.operand(x)?)))
    }

    // IN the values of an inner query, which are none until they are in its place.
    #[cycle(eval)]
    fn unanswered(&self, x: &'a Expr) -> Result<Value, Stop>
        ensures { Computes result (both (λ v vs. Some (condition (any_equal v vs))) (value_on self.now.row.now x.now) (Some [])) }
    {
        let _value = self.operand(x)?;
        Ok(from_condition(Some(false)))
    }

    // A CASE without an operand.
    #[cycle(eval)]
    fn choice(&self, arms: &'a [Arm], otherwise: &'a Expr) -> Result<Value, Stop>
        ensures { Computes result (or_otherwise (run_arms None (map datum_of self.now.row.now) None (arm_trees arms.now)) (value_on self.now.row.now otherwise.now)) }
    {
        match self.choose(None, arms)? {
            Some(v) => Ok(v),
            None => self.compute(otherwise),
        }
    }

    // A CASE with one.
    #[cycle(eval)]
    fn choice_of(&self, x: &'a Expr, arms: &'a [Arm], otherwise: &'a Expr) -> Result<Value, Stop>
        ensures { Computes result (option_and_then (λ v. or_otherwise (run_arms None (map datum_of self.now.row.now) (Some v) (arm_trees arms.now))
            (value_on self.now.row.now otherwise.now)) (value_on self.now.row.now x.now)) }
    {
        let x = self.operand(x)?;
        match self.choose(Some(&*x), arms)? {
            Some(v) => Ok(v),
            None => self.compute(otherwise),
        }
    }

    // NULLIF.
    #[cycle(eval)]
    fn null_if(&self, a: &'a Expr, b: &'a Expr) -> Result<Value, Stop>
        ensures { Computes result (both (λ x y. Some (null_if_equal x y)) (value_on self.now.row.now a.now) (value_on self.now.row.now b.now)) }
    {
        Ok(null_if_equal(self.compute(a)?, &*self.operand(b)?))
    }

    // LIKE.
    #[cycle(eval)]
    fn likeness(&self, a: &'a Expr, b: &'a Expr) -> Result<Value, Stop>
        ensures { Computes result (both (λ x y. Some (like_of x y)) (value_on self.now.row.now a.now) (value_on self.now.row.now b.now)) }
    {
        Ok(like(self.alloc, &*self.operand(a)?, &*self.operand(b)?)?)
    }

    // The value of an expression that stands in the tree or in the row; `None` where it has to be computed.
    #[inline]
    fn held(&self, e: &'a Expr) -> Option<&'a Value>
        ensures { IfSome result (λ v. value_on self.now.row.now e.now ≡ Some (datum_of v.now)) }
    {
        match e {
            Expr::Literal(v) => Some(v),
            Expr::Column(i) => self.row.get(*i),
            _ => None,
        }
    }

    // The value of an operand, which is read and not kept: borrowed where it stands in the tree or in the row.
    #[cycle(eval)]
    fn operand(&self, e: &'a Expr) -> Result<Cow<'a, Value>, Stop>
        ensures { ComputesAs (λ v. datum_of (cow_value v)) result (value_on self.now.row.now e.now) }
    {
        match e {
            Expr::Literal(v) => Ok(Cow::Borrowed(v)),
            Expr::Column(i) => Ok(match self.row.get(*i) {
                Some(v) => Cow::Borrowed(v),
                None => Cow::Owned(Value::Null),
            }),
            _ => Ok(Cow::Owned(self.compute(e)?)),
        }
    }

    // A value against that of an expression.
    #[cycle(eval)]
    fn compare_with(&self, op: Comparison, x: &Value, e: &'a Expr) -> Result<Option<bool>, Stop>
        ensures { ComputesAs (λ b. b) result (option_map (comparison op (datum_of x.now)) (value_on self.now.row.now e.now)) }
    {
        Ok(comparison(op, x, &*self.operand(e)?))
    }

    // AND, past its left side.
    #[cycle(eval)]
    fn and_then(&self, left: Option<bool>, right: &'a Expr) -> Result<Value, Stop>
        ensures { Computes result (and_then (Some left) (option_map truth (value_on self.now.row.now right.now))) }
    {
        if left == Some(false) {
            return Ok(from_condition(left));
        }
        let right = truth(&*self.operand(right)?);
        Ok(from_condition(and3(left, right)))
    }

    // OR, past its left side.
    #[cycle(eval)]
    fn or_else(&self, left: Option<bool>, right: &'a Expr) -> Result<Value, Stop>
        ensures { Computes result (or_else (Some left) (option_map truth (value_on self.now.row.now right.now))) }
    {
        if left == Some(true) {
            return Ok(from_condition(left));
        }
        let right = truth(&*self.operand(right)?);
        Ok(from_condition(or3(left, right)))
    }

    // BETWEEN, past its lower bound.
    #[cycle(eval)]
    fn and_at_most(&self, above: Option<bool>, x: &Value, high: &'a Expr) -> Result<Value, Stop>
        ensures { Computes result (and_then (Some above) (option_map (comparison Comparison.Le (datum_of x.now)) (value_on self.now.row.now high.now))) }
    {
        if above == Some(false) {
            return Ok(from_condition(above));
        }
        let below = self.compare_with(Comparison::Le, x, high)?;
        Ok(from_condition(and3(above, below)))
    }

    // Whether a value equals one of a list, all of which are computed.
    #[cycle(eval)]
    fn any_equal(&self, x: &Value, items: &'a [Expr]) -> Result<Option<bool>, Stop>
        ensures { ComputesAs (λ b. b) result (option_map (any_equal (datum_of x.now)) (run_all None (map datum_of self.now.row.now) (trees items.now))) }
    {
        let mut found = Some(false);
        for item in items {
            let y = self.operand(item)?;
            found = or3(found, comparison(Comparison::Eq, x, &*y));
        }
        Ok(found)
    }

    // The first value that is not NULL.
    #[cycle(eval)]
    fn first_value(&self, items: &'a [Expr]) -> Result<Value, Stop>
        ensures { Computes result (run_first None (map datum_of self.now.row.now) (trees items.now)) }
    {
        for item in items {
            let v = self.compute(item)?;
            if !is_null(&v) {
                return Ok(v);
            }
        }
        Ok(Value::Null)
    }

    // What the first arm of a CASE that holds gives.
    #[cycle(eval)]
    fn choose(&self, operand: Option<&Value>, arms: &'a [Arm]) -> Result<Option<Value>, Stop>
        ensures { ComputesAs (option_map datum_of) result (run_arms None (map datum_of self.now.row.now) (option_map datum_of (option_copied operand.entry)) (arm_trees arms.now)) }
    {
        for arm in arms {
            let c = self.operand(&arm.when)?;
            let holds = match operand {
                None => truth(&*c),
                Some(x) => comparison(Comparison::Eq, x, &*c),
            };
            if holds == Some(true) {
                return Ok(Some(self.compute(&arm.then)?));
            }
        }
        Ok(None)
    }
}
