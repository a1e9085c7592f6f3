//! Values of other rows.
ghost use Rattle.std.specs.Prelude.{◌≡◌, ◌<◌, ◌+◌, ◌-◌, IfOk, if◌then◌else◌, length, map, nat_le, nat_lt, reverse};
ghost use Rattle.values.specs.Datum.{datum_of};
ghost use Rattle.semantics.specs.Sequence.{value_at};
ghost use Rattle.windows.specs.frames.Ranges.{AreInside};
ghost use Rattle.windows.specs.frames.Slices.{slices};

use crate::frames::Ranges;
use std::alloc::{AllocError, Global};
use values::Value;

/// The value at a place, or NULL past the end.
fn value_copied(alloc: Global, values: &[Value], at: usize) -> Result<Value, AllocError>
    ensures { IfOk result (λ v. datum_of v ≡ value_at (map datum_of values.now) at) }
{
    match values.get(at) {
        Some(value) => value.as_ref().to_value(alloc),
        None => Ok(Value::Null),
    }
}

/// The value of the row so many before this one, of the values along a sequence, or another where there is no such row.
/// (Window Functions, "Built-in Window Functions")
pub fn lag(
    alloc: Global,
    values: &[Value],
    otherwise: &Value,
    count: u64,
    here: usize,
) -> Result<Value, AllocError>
    ensures { IfOk result (λ v. datum_of v ≡ (if nat_le count here then value_at (map datum_of values.now) (here - count) else datum_of otherwise.now)) }
{
    if count <= here as u64 {
        value_copied(alloc, values, here - count as usize)
    } else {
        otherwise.as_ref().to_value(alloc)
    }
}

/// The value of the row so many behind this one, or another where there is no such row.
pub fn lead(
    alloc: Global,
    values: &[Value],
    otherwise: &Value,
    count: u64,
    here: usize,
) -> Result<Value, AllocError>
    requires { here < length values.now }
    ensures { IfOk result (λ v. datum_of v ≡ (if nat_lt (here + count) (length values.now) then value_at (map datum_of values.now) (here + count) else datum_of otherwise.now)) }
{
    let left = values.len() - here;
    if count < left as u64 {
        value_copied(alloc, values, here + count as usize)
    } else {
        otherwise.as_ref().to_value(alloc)
    }
}

/// The value of a row of a frame, counted from 0, or NULL where it has no such row.
pub fn nth_value(
    alloc: Global,
    values: &[Value],
    ranges: &Ranges,
    at: usize,
) -> Result<Value, AllocError>
    requires { AreInside ranges.now (length values.now) }
    ensures { IfOk result (λ v. datum_of v ≡ value_at (slices ranges.now (map datum_of values.now)) at) }
{
    let front = ranges.from - ranges.start;
    let middle = ranges.after - ranges.middle;
    let back = ranges.end - ranges.to;
    if at < front {
        value_copied(alloc, values, ranges.start + at)
    } else if at - front < middle {
        value_copied(alloc, values, ranges.middle + (at - front))
    } else if at - front - middle < back {
        value_copied(alloc, values, ranges.to + (at - front - middle))
    } else {
        Ok(Value::Null)
    }
}

/// The value of the first row of a frame, or NULL where it has none.
pub fn first_value(alloc: Global, values: &[Value], ranges: &Ranges) -> Result<Value, AllocError>
    requires { AreInside ranges.now (length values.now) }
    ensures { IfOk result (λ v. datum_of v ≡ value_at (slices ranges.now (map datum_of values.now)) 0) }
{
    nth_value(alloc, values, ranges, 0)
}

/// How many rows a frame has.
fn rows_in(ranges: &Ranges, size: usize) -> usize
    requires { AreInside ranges.now size }
    ensures { result ≡ (ranges.now.from - ranges.now.start) + (ranges.now.after - ranges.now.middle) + (ranges.now.end - ranges.now.to) }
{
    (ranges.from - ranges.start) + (ranges.after - ranges.middle) + (ranges.end - ranges.to)
}

/// The value of the last row of a frame, or NULL where it has none.
pub fn last_value(alloc: Global, values: &[Value], ranges: &Ranges) -> Result<Value, AllocError>
    requires { AreInside ranges.now (length values.now) }
    ensures { IfOk result (λ v. datum_of v ≡ value_at (reverse (slices ranges.now (map datum_of values.now))) 0) }
{
    let count = rows_in(ranges, values.len());
    if count == 0 {
        return Ok(Value::Null);
    }
    nth_value(alloc, values, ranges, count - 1)
}
