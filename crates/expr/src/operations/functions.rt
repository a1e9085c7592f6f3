//! The scalar functions of one value.
ghost use Rattle.std.specs.Prelude.{◌≡◌, pos, ◌-ℤ◌, neg_ℤ, unsigned_abs, not, option_map, IfOk, Some, None};
ghost use Rattle.values.specs.Datum.{datum_of, text};
ghost use Rattle.expr.specs.operations.Operations.{settle};
ghost use Rattle.expr.specs.operations.Functions.{text_length, length_of, hex_of, type_name, call_of};
ghost use Rattle.expr.specs.operations.Contract.{Computes};

use crate::operations::kinds::Function;
use crate::operations::operations::{Stop, from_condition, truth};
use std::alloc::{AllocError, Global};
use values::Value;

#[tactic(auto, unfolding(crate::specs::operations::Operations::settle))]
fn negate(x: i64) -> Result<Value, Stop>
    ensures { Computes result (settle None (neg_ℤ x)) }
{
    match x.checked_neg() {
        Some(z) => Ok(Value::Int(z)),
        None => Err(Stop::Overflow),
    }
}

#[tactic(auto, unfolding(crate::specs::operations::Operations::settle))]
fn absolute(x: i64) -> Result<Value, Stop>
    ensures { Computes result (settle None (pos (unsigned_abs x))) }
{
    match x.checked_abs() {
        Some(z) => Ok(Value::Int(z)),
        None => Err(Stop::Overflow),
    }
}

#[tactic(auto, unfolding(crate::specs::operations::Operations::settle))]
fn complement(x: i64) -> Result<Value, Stop>
    ensures { Computes result (settle None (neg_ℤ x -ℤ pos 1)) }
{
    Ok(Value::Int(-1 - x))
}

#[tactic(auto, unfolding(crate::specs::operations::Operations::settle))]
fn count(n: usize) -> Result<Value, Stop>
    ensures { Computes result (settle None (pos n)) }
{
    if n <= i64::MAX as usize {
        Ok(Value::Int(n as i64))
    } else {
        Err(Stop::Overflow)
    }
}

// The characters before the first U+0000.
fn text_length(s: &str) -> usize
    ensures { result ≡ text_length s.now }
{
    s.chars().take_while(|c| *c != '\0').count()
}

#[tactic(auto, unfolding(crate::specs::operations::Functions::length_of))]
fn length(x: &Value) -> Result<Value, Stop>
    ensures { Computes result (length_of None (datum_of x.now)) }
{
    match x {
        Value::Text(s) => count(text_length(s.as_str())),
        Value::Blob(b) => count(b.len()),
        _ => Ok(Value::Null),
    }
}

#[tactic(auto, unfolding(crate::specs::operations::Functions::hex_of))]
fn hex(alloc: Global, x: &Value) -> Result<Value, AllocError>
    ensures { IfOk result (λ v. datum_of v ≡ hex_of (datum_of x.now)) }
{
    match x {
        Value::Text(s) => Ok(Value::Text(hex::encode_upper(alloc, s.as_str().as_bytes())?)),
        Value::Blob(b) => Ok(Value::Text(hex::encode_upper(alloc, b.as_slice())?)),
        _ => Ok(Value::Text(String::new(alloc))),
    }
}

#[tactic(auto, unfolding(crate::specs::operations::Functions::type_name))]
fn type_name(x: &Value) -> &'static str
    ensures { result.now ≡ type_name (datum_of x.now) }
{
    match x {
        Value::Null => "null",
        Value::Int(_) => "integer",
        Value::Text(_) => "text",
        Value::Blob(_) => "blob",
    }
}

fn not3(t: Option<bool>) -> Option<bool>
    ensures { result ≡ option_map not t }
{
    match t {
        Some(b) => Some(!b),
        None => None,
    }
}

/// The value of a function.
#[tactic(auto, unfolding(crate::specs::operations::Functions::call_of))]
pub fn call(alloc: Global, f: Function, x: &Value) -> Result<Value, Stop>
    ensures { Computes result (call_of None f (datum_of x.now)) }
{
    match (f, x) {
        (Function::Neg, Value::Int(n)) => negate(*n),
        (Function::BitNot, Value::Int(n)) => complement(*n),
        (Function::Abs, Value::Int(n)) => absolute(*n),
        (Function::Not, _) => Ok(from_condition(not3(truth(x)))),
        (Function::Length, _) => length(x),
        (Function::Lower, Value::Text(s)) => {
            let mut s = String::from_str(alloc, s.as_str())?;
            s.make_ascii_lowercase();
            Ok(Value::Text(s))
        }
        (Function::Upper, Value::Text(s)) => {
            let mut s = String::from_str(alloc, s.as_str())?;
            s.make_ascii_uppercase();
            Ok(Value::Text(s))
        }
        (Function::Hex, _) => Ok(hex(alloc, x)?),
        (Function::TypeOf, _) => Ok(Value::Text(String::from_str(alloc, type_name(x))?)),
        _ => Ok(Value::Null),
    }
}
