//! The values of the bounds of a search.
ghost use Rattle.std.specs.Prelude.{◌≡◌, ◌<◌, ◌≤◌, ◌+◌, ◌++◌, ◌∷◌, [], IfOk, OnOk, length, map, option_map, replicate, slice_set, take};
ghost use Rattle.values.specs.Datum.{datum_of, datum_of_ref, null};
ghost use Rattle.btree_cursor.specs.key_ranges.View.{edge_option, range};
ghost use Rattle.records_searches.specs.RangeView.{IsSameShape, bound_edge, range_of, unset_edge, with_value};

use btree_cursor::key_ranges::{Bound, KeyRange};
use std::alloc::{AllocError, Global};
use std::marker::Model;
use values::{Value, ValueRef};

/// Whether a bound lets a value through that is equal to its own: `>=` and `<=` do, `>` and `<` don't.
#[derive(Clone, Copy, Debug, PartialEq, Eq)]
pub enum BoundKind {
    Inclusive,
    Strict,
}

/// Which bounds a search has: how many columns have to have a value, and which bounds the column after them has.
#[derive(Clone, Copy, Debug)]
pub struct RangeShape {
    pub equal: usize,
    pub lower: Option<BoundKind>,
    pub upper: Option<BoundKind>,
}

/// The value of a bound, in memory of its own.
#[derive(Debug, Drop)]
struct BoundValue {
    value: Value,
    strict: bool,
}

/// The values of the bounds of a search, for the row for which it was opened. Where a text or a blob takes the place of
/// another, it takes its memory too, so that a search is opened again without new memory. A clause sees the range of
/// entries that they let through.
#[derive(Debug, Drop)]
pub struct RangeValues {
    equal: Vec<Value>,
    lower: Option<BoundValue>,
    upper: Option<BoundValue>,
}

impl Model for RangeValues {
    ghost use Rattle.std.specs.Prelude.{map, option_map};
    ghost use Rattle.values.specs.Datum.{datum_of};
    ghost use Rattle.btree_cursor.specs.key_ranges.Ranges.{Range};
    ghost use Rattle.records_searches.specs.RangeView.{bound_edge};

    ghost Value = { Range };

    ghost view = { λ r. record {
      equal = map datum_of r.equal.items;
      lower = option_map bound_edge r.lower;
      upper = option_map bound_edge r.upper;
    } };
}

/// Puts a value over another; a text or a blob in the memory of the one that was there.
fn put_over(alloc: Global, slot: &mut Value, value: ValueRef<'_>) -> Result<(), AllocError>
    ensures { IfOk result (λ _. datum_of slot.new ≡ datum_of_ref value.entry) }
{
    match (&mut *slot, value) {
        (Value::Text(old), ValueRef::Text(text)) => {
            old.clear();
            old.push_str(text)
        }
        (Value::Blob(old), ValueRef::Blob(bytes)) => {
            old.clear();
            old.extend_from_slice(bytes)
        }
        _ => {
            *slot = value.to_value(alloc)?;
            Ok(())
        }
    }
}

/// Puts a value over the one at a place.
fn put_at(
    alloc: Global,
    values: &mut Vec<Value>,
    at: usize,
    value: ValueRef<'_>,
) -> Result<(), AllocError>
    requires { at < length values.old.items }
    ensures value { OnOk result (map datum_of values.new.items ≡ slice_set (map datum_of values.old.items) at (datum_of_ref value.entry)) }
    ensures long { length values.new.items ≡ length values.old.items }
{
    put_over(alloc, &mut values[at], value)
}

/// Puts a value at a place of a list of values, over the one that is there, or after the others.
pub(crate) fn put_value(
    alloc: Global,
    values: &mut Vec<Value>,
    at: usize,
    value: ValueRef<'_>,
) -> Result<(), AllocError>
    requires { at ≤ length values.old.items }
    ensures value { IfOk result (λ _. take (at + 1) (map datum_of values.new.items) ≡ take at (map datum_of values.old.items) ++ datum_of_ref value.entry ∷ []) }
    ensures long { IfOk result (λ _. at + 1 ≤ length values.new.items) }
{
    if at < values.len() {
        return put_over(alloc, &mut values[at], value);
    }
    values.push(value.to_value(alloc)?)?;
    Ok(())
}

/// Gives a bound this value, where there is one.
fn put_bound(
    alloc: Global,
    bound: &mut Option<BoundValue>,
    value: ValueRef<'_>,
) -> Result<(), AllocError>
    ensures value { OnOk result (option_map bound_edge bound.new ≡ with_value (option_map bound_edge bound.old) (datum_of_ref value.entry)) }
    ensures kind { option_map (λ b. b.strict) bound.new ≡ option_map (λ b. b.strict) bound.old }
{
    match bound {
        Some(bound) => put_over(alloc, &mut bound.value, value),
        None => Ok(()),
    }
}

/// A bound of this kind whose value is NULL.
fn unset(kind: Option<BoundKind>) -> Option<BoundValue>
    ensures { option_map bound_edge result ≡ option_map unset_edge kind }
{
    let kind = kind?;
    Some(BoundValue {
        value: Value::Null,
        strict: kind == BoundKind::Strict,
    })
}

/// So many NULLs.
fn nulls(alloc: Global, count: usize) -> Result<Vec<Value>, AllocError>
    ensures { IfOk result (λ values. map datum_of values.items ≡ replicate count null) }
{
    let mut values = Vec::with_capacity(alloc, count)?;
    for _at in 0..count {
        values.push(Value::Null)?;
    }
    Ok(values)
}

/// The bound that a value is.
fn lent(bound: &Option<BoundValue>) -> Option<Bound<'_>>
    ensures { edge_option result ≡ option_map bound_edge bound.now }
{
    match bound {
        Some(bound) => Some(Bound {
            value: bound.value.as_ref(),
            strict: bound.strict,
        }),
        None => None,
    }
}

impl RangeValues {
    /// The bounds of a search of this shape before it is opened: each value is NULL, which no entry meets.
    pub fn new(alloc: Global, shape: RangeShape) -> Result<RangeValues, AllocError>
        ensures { IfOk result (λ values. values ≡ range_of shape) }
    {
        Ok(RangeValues {
            equal: nulls(alloc, shape.equal)?,
            lower: unset(shape.lower),
            upper: unset(shape.upper),
        })
    }

    /// Sets the value that the column at a place has to have. After an error the value there is another.
    pub fn set_equal(
        &mut self,
        alloc: Global,
        at: usize,
        value: ValueRef<'_>,
    ) -> Result<(), AllocError>
        requires { at < length self.old.equal }
        ensures value { OnOk result (self.new ≡ record self.old { equal = slice_set self.old.equal at (datum_of_ref value.entry) }) }
        ensures shape { IsSameShape self.old self.new }
    {
        put_at(alloc, &mut self.equal, at, value)
    }

    /// Sets the value of the lower bound, where there is one. After an error the value is another.
    pub fn set_lower(&mut self, alloc: Global, value: ValueRef<'_>) -> Result<(), AllocError>
        ensures value { OnOk result (self.new ≡ record self.old { lower = with_value self.old.lower (datum_of_ref value.entry) }) }
        ensures shape { IsSameShape self.old self.new }
    {
        put_bound(alloc, &mut self.lower, value)
    }

    /// Sets the value of the upper bound, where there is one. After an error the value is another.
    pub fn set_upper(&mut self, alloc: Global, value: ValueRef<'_>) -> Result<(), AllocError>
        ensures value { OnOk result (self.new ≡ record self.old { upper = with_value self.old.upper (datum_of_ref value.entry) }) }
        ensures shape { IsSameShape self.old self.new }
    {
        put_bound(alloc, &mut self.upper, value)
    }

    /// The range of entries that they let through.
    pub fn key_range(&self) -> KeyRange<'_>
        ensures { range result ≡ self.now }
    {
        KeyRange {
            equal: self.equal.as_slice(),
            lower: lent(&self.lower),
            upper: lent(&self.upper),
        }
    }
}
