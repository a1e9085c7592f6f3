//! The operations on values.
ghost use Rattle.std.specs.Prelude.{◌≡◌, Some, None, IfOk, IfSome};
ghost use Rattle.values.specs.Datum.{datum_of, int};
ghost use Rattle.expr.specs.operations.Operations.{settle, of_integers, arithmetic_of, comparison, test_of, and3, or3, concat_of, same, is_null, truth, condition, null_if_equal};
ghost use Rattle.expr.specs.operations.Contract.{Computes};

use crate::operations::kinds::{Arithmetic, Comparison};
use std::alloc::AllocError;
use std::cmp::Ordering;
use values::{Fault, Value, compare};

/// Why an expression has no value.
#[derive(Clone, Copy, Debug, PartialEq, Eq)]
pub enum Stop {
    Overflow,
    NoMemory,
}

impl From<AllocError> for Stop {
    ghost use Rattle.std.specs.Prelude.{◌≡◌};
    ghost use Rattle.expr.specs.declared.operations.operations.Stop.TheVariants.{NoMemory};

    ghost from_gives = { λ _ stop. stop ≡ NoMemory };

    fn from(_: AllocError) -> Stop {
        Stop::NoMemory
    }
}

impl From<Stop> for Fault {
    ghost use Rattle.std.specs.Prelude.{◌≡◌};
    ghost use Rattle.expr.specs.operations.Faults.{fault_of};

    ghost from_gives = { λ stop fault. fault ≡ fault_of stop };

    fn from(stop: Stop) -> Fault {
        match stop {
            Stop::Overflow => Fault::Overflow,
            Stop::NoMemory => Fault::NoMemory,
        }
    }
}

/// Whether a value is NULL.
#[tactic(auto, unfolding(crate::specs::operations::Operations::is_null))]
pub fn is_null(value: &Value) -> bool
    ensures { result ≡ is_null (datum_of value.now) }
{
    matches!(value, Value::Null)
}

/// Whether a value is true: 0 is false, another number true, and NULL unknown.
#[tactic(auto, unfolding(crate::specs::operations::Operations::truth))]
pub fn truth(value: &Value) -> Option<bool>
    ensures { result ≡ truth (datum_of value.now) }
{
    match value {
        Value::Int(number) => Some(*number != 0),
        _ => None,
    }
}

/// The value of a condition: 1, 0 or NULL.
#[tactic(auto, unfolding(crate::specs::operations::Operations::condition))]
pub fn from_condition(truth: Option<bool>) -> Value
    ensures { datum_of result ≡ condition truth }
{
    match truth {
        None => Value::Null,
        Some(true) => Value::Int(1),
        Some(false) => Value::Int(0),
    }
}

// Of two whole numbers: truncating division, a remainder with the left side's sign, NULL where the divisor is 0.
#[tactic(auto, unfolding(crate::specs::operations::Operations::settle, crate::specs::operations::Operations::of_integers))]
#[inline]
fn of_integers(op: Arithmetic, x: i64, y: i64) -> Result<Value, Stop>
    ensures { Computes result (of_integers None op x y) }
{
    match op {
        Arithmetic::Add => match x.checked_add(y) {
            Some(z) => Ok(Value::Int(z)),
            None => Err(Stop::Overflow),
        },
        Arithmetic::Sub => match x.checked_sub(y) {
            Some(z) => Ok(Value::Int(z)),
            None => Err(Stop::Overflow),
        },
        Arithmetic::Mul => match x.checked_mul(y) {
            Some(z) => Ok(Value::Int(z)),
            None => Err(Stop::Overflow),
        },
        Arithmetic::Div => {
            if y == 0 {
                return Ok(Value::Null);
            }
            match x.checked_div(y) {
                Some(z) => Ok(Value::Int(z)),
                None => Err(Stop::Overflow),
            }
        }
        Arithmetic::Rem => {
            if y == 0 {
                return Ok(Value::Null);
            }
            Ok(Value::Int(x.wrapping_rem(y)))
        }
        Arithmetic::BitAnd => Ok(Value::Int(x & y)),
        Arithmetic::BitOr => Ok(Value::Int(x | y)),
    }
}

/// The number that an operation on two numbers gives; `None` where it gives NULL or leaves 64 bits.
#[inline(always)]
pub(crate) fn integer_of(op: Arithmetic, x: i64, y: i64) -> Option<i64>
    ensures { IfSome result (λ z. of_integers None op x y ≡ Some (int z)) }
{
    match of_integers(op, x, y) {
        Ok(Value::Int(z)) => Some(z),
        _ => None,
    }
}

/// An operation on two numbers; NULL where a side is none.
#[inline(always)]
#[tactic(auto, unfolding(crate::specs::operations::Operations::arithmetic_of))]
pub fn arithmetic(op: Arithmetic, a: &Value, b: &Value) -> Result<Value, Stop>
    ensures { Computes result (arithmetic_of None op (datum_of a.now) (datum_of b.now)) }
{
    match (a, b) {
        (Value::Int(x), Value::Int(y)) => of_integers(op, *x, *y),
        _ => Ok(Value::Null),
    }
}

// What a comparison asks of the order of its sides.
#[inline(always)]
#[tactic(auto, unfolding(crate::specs::operations::Operations::test_of))]
fn test(op: Comparison, r: Ordering) -> bool
    ensures { result ≡ test_of op r }
{
    match op {
        Comparison::Eq => r.is_eq(),
        Comparison::Ne => r.is_ne(),
        Comparison::Lt => r.is_lt(),
        Comparison::Le => r.is_le(),
        Comparison::Gt => r.is_gt(),
        Comparison::Ge => r.is_ge(),
    }
}

/// A comparison of two numbers.
#[inline(always)]
pub(crate) fn integers_compare(op: Comparison, x: i64, y: i64) -> bool
    ensures { comparison op (int x) (int y) ≡ Some result }
{
    test(op, x.cmp(&y))
}

/// A comparison, unknown where a side is NULL.
#[inline(always)]
#[tactic(auto, unfolding(crate::specs::operations::Operations::comparison))]
pub fn comparison(op: Comparison, a: &Value, b: &Value) -> Option<bool>
    ensures { result ≡ comparison op (datum_of a.now) (datum_of b.now) }
{
    if is_null(a) || is_null(b) {
        return None;
    }
    Some(test(op, compare(a, b)))
}

/// Whether two values are one, where NULL is equal to NULL.
#[tactic(auto, unfolding(crate::specs::operations::Operations::same))]
pub fn is_same(a: &Value, b: &Value) -> bool
    ensures { result ≡ same (datum_of a.now) (datum_of b.now) }
{
    compare(a, b).is_eq()
}

/// AND of three truths.
pub fn and3(a: Option<bool>, b: Option<bool>) -> Option<bool>
    ensures { result ≡ and3 a b }
{
    match (a, b) {
        (Some(false), _) | (_, Some(false)) => Some(false),
        (Some(true), Some(true)) => Some(true),
        _ => None,
    }
}

/// OR of three truths.
pub fn or3(a: Option<bool>, b: Option<bool>) -> Option<bool>
    ensures { result ≡ or3 a b }
{
    match (a, b) {
        (Some(true), _) | (_, Some(true)) => Some(true),
        (Some(false), Some(false)) => Some(false),
        _ => None,
    }
}

/// One text behind another; NULL where a side is none.
#[tactic(auto, unfolding(crate::specs::operations::Operations::concat_of))]
pub fn concat(a: Value, b: &Value) -> Result<Value, AllocError>
    ensures { IfOk result (λ v. datum_of v ≡ concat_of (datum_of a) (datum_of b.now)) }
{
    match (a, b) {
        (Value::Text(mut s), Value::Text(t)) => {
            s.push_str(t.as_str())?;
            Ok(Value::Text(s))
        }
        _ => Ok(Value::Null),
    }
}

/// NULL where two values are equal, and else the first.
#[tactic(auto, unfolding(crate::specs::operations::Operations::null_if_equal))]
pub fn null_if_equal(a: Value, b: &Value) -> Value
    ensures { datum_of result ≡ null_if_equal (datum_of a) (datum_of b.now) }
{
    match comparison(Comparison::Eq, &a, b) {
        Some(true) => Value::Null,
        _ => a,
    }
}
