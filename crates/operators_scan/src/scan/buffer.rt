//! The row buffer, in which values overwrite those of an earlier row.
ghost use Rattle.std.specs.Prelude.{◌≡◌, ◌≤◌, ◌+◌, ◌++◌, ◌∷◌, [], IfOk, length, map, take};
ghost use Rattle.values.specs.Datum.{datum_of, datum_of_ref};

use std::alloc::{AllocError, Global};
use values::{Value, ValueRef};

/// Puts a value over another; a text or a blob in the memory of the one that was there.
#[inline(always)]
fn put_over(alloc: Global, slot: &mut Value, value: ValueRef<'_>) -> Result<(), AllocError>
    ensures { IfOk result (λ _. datum_of slot.new ≡ datum_of_ref value.entry) }
{
    match (&mut *slot, value) {
        (Value::Text(old), ValueRef::Text(text)) => {
            old.clear();
            old.push_str(text)
        }
        (Value::Blob(old), ValueRef::Blob(bytes)) => {
            old.clear();
            old.extend_from_slice(bytes)
        }
        _ => {
            *slot = value.to_value(alloc)?;
            Ok(())
        }
    }
}

/// Puts a value at a place of a row, over the one that is there, or behind the others.
#[inline(always)]
pub fn put_value(
    alloc: Global,
    row: &mut Vec<Value>,
    at: usize,
    value: ValueRef<'_>,
) -> Result<(), AllocError>
    requires { at ≤ length row.old.items }
    ensures value { IfOk result (λ _. take (at + 1) (map datum_of row.new.items) ≡ take at (map datum_of row.old.items) ++ datum_of_ref value.entry ∷ []) }
    ensures long { IfOk result (λ _. at + 1 ≤ length row.new.items) }
{
    if at < row.len() {
        return put_over(alloc, &mut row[at], value);
    }
    row.push(value.to_value(alloc)?)?;
    Ok(())
}

/// The first values of a row, or all where it has fewer.
pub fn front_of(row: &[Value], count: usize) -> &[Value]
    ensures { map datum_of result.now ≡ take count (map datum_of row.now) }
{
    &row[..count.min(row.len())]
}
