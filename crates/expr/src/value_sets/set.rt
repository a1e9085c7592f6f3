//! Values that are asked whether one of them equals another.
ghost use Rattle.std.specs.Prelude.{◌≡◌, ◌≢◌, ◌↔◌, false, IfOk, IsTrue, map};
ghost use Rattle.std.specs.List.{list_any};
ghost use Rattle.values.specs.Datum.{Datum, datum_of, int, null};
ghost use Rattle.expr.specs.operations.Operations.{any_equal, is_null};
ghost use Rattle.expr.specs.value_sets.Order.{is_among};

use crate::operations::is_null;
use crate::value_sets::numbers::{has_number, numbers_of};
use crate::value_sets::order::{is_among, order_of};
use std::alloc::{AllocError, Global};
use std::marker::Model;
use values::Value;

/// A list of values, of which one that equals another is found by halves. (SQL Language Expressions, "The IN and NOT IN Operators")
#[derive(Drop)]
pub struct ValueSet {
    values: Vec<Value>,
    /// The places of the values, in the order of the values.
    order: Vec<usize>,
    /// The whole numbers among them, ascending: a number is searched side by side in memory.
    numbers: Vec<i64>,
    /// Whether one of the values is NULL.
    has_null: bool,
}

impl Model for ValueSet {
    ghost use Rattle.std.specs.Prelude.{List, map};
    ghost use Rattle.values.specs.Datum.{Datum, datum_of};
    ghost use Rattle.expr.specs.value_sets.Set.{IsSetOf};

    ghost Value = { List Datum };

    ghost view = { λ s. map datum_of s.values.items };

    ghost invariant = { λ s. IsSetOf (map datum_of s.values.items) s.order.items s.numbers.items s.has_null };
}

/// Whether one of these values is NULL.
fn any_null(values: &[Value]) -> bool
    ensures { result ≡ list_any is_null (map datum_of values.now) }
{
    for value in values {
        if is_null(value) {
            return true;
        }
    }
    false
}

/// Copies of these values.
fn copies(alloc: Global, values: &[Value]) -> Result<Vec<Value>, AllocError>
    ensures { IfOk result (λ copies. map datum_of copies.items ≡ map datum_of values.now) }
{
    let mut copies = Vec::with_capacity(alloc, values.len())?;
    for value in values {
        copies.push(value.as_ref().to_value(alloc)?)?;
    }
    Ok(copies)
}

impl ValueSet {
    /// The set of these values, also of equal ones and of NULL.
    pub fn new(alloc: Global, values: Vec<Value>) -> Result<ValueSet, AllocError>
        ensures { IfOk result (λ set. set ≡ map datum_of values.items) }
    {
        let order = order_of(alloc, values.as_slice())?;
        let numbers = numbers_of(alloc, values.as_slice())?;
        let has_null = any_null(values.as_slice());
        Ok(ValueSet {
            values,
            order,
            numbers,
            has_null,
        })
    }

    /// The set of copies of these values.
    pub fn of(alloc: Global, values: &[Value]) -> Result<ValueSet, AllocError>
        ensures { IfOk result (λ set. set ≡ map datum_of values.now) }
    {
        ValueSet::new(alloc, copies(alloc, values)?)
    }

    /// A copy of the set.
    pub fn copied(&self, alloc: Global) -> Result<ValueSet, AllocError>
        ensures { IfOk result (λ set. set ≡ self.now) }
    {
        let values = copies(alloc, self.values.as_slice())?;
        let order = Vec::from_slice(alloc, self.order.as_slice())?;
        let numbers = Vec::from_slice(alloc, self.numbers.as_slice())?;
        Ok(ValueSet {
            values,
            order,
            numbers,
            has_null: self.has_null,
        })
    }

    /// The values, in the order in which they were given.
    pub fn values(&self) -> &[Value]
        ensures { map datum_of result.now ≡ self.now }
    {
        self.values.as_slice()
    }

    /// Whether another set has the same values, in the same order.
    pub fn is_same(&self, other: &ValueSet) -> bool
        ensures { IsTrue result ↔ self.now ≡ other.now }
    {
        self.values == other.values
    }

    /// Whether a value that is not NULL is one of the set.
    #[inline(always)]
    fn has(&self, value: &Value) -> bool
        requires { datum_of value.now ≢ null }
        ensures { result ≡ is_among (datum_of value.now) self.now }
    {
        match value {
            Value::Int(number) => has_number(self.numbers.as_slice(), *number),
            value => is_among(self.values.as_slice(), self.order.as_slice(), value),
        }
    }

    /// Whether a value that is not NULL equals one of the set, of which it is known whether it is one.
    #[inline(always)]
    fn any_equal_where(&self, is_one: bool) -> Option<bool>
        ensures { (x : Datum) → is_null x ≡ false → is_one ≡ is_among x self.now → result ≡ any_equal x self.now }
    {
        if is_one {
            return Some(true);
        }
        if self.has_null { None } else { Some(false) }
    }

    /// The same as `any_equal` of a number.
    #[inline(always)]
    pub(crate) fn any_equal_number(&self, number: i64) -> Option<bool>
        ensures { result ≡ any_equal (int number) self.now }
    {
        self.any_equal_where(has_number(self.numbers.as_slice(), number))
    }

    /// Whether a value equals one of the set: true where one is the same, and else unknown where one of them or the value is NULL;
    /// but of no values none is equal.
    pub fn any_equal(&self, value: &Value) -> Option<bool>
        ensures { result ≡ any_equal (datum_of value.now) self.now }
    {
        if self.values.is_empty() {
            return Some(false);
        }
        if is_null(value) {
            return None;
        }
        self.any_equal_where(self.has(value))
    }
}
