//! The positions of values, in the order of the values.
ghost use Rattle.std.specs.Prelude.{◌≡◌, ◌≢◌, ◌<◌, Contains, IfOk, IsPermutation, map};
ghost use Rattle.std.specs.List.Sorted.{IsSortedByKey};
ghost use Rattle.values.specs.Datum.{datum_of, null};
ghost use Rattle.values.specs.Order.{datum_cmp};
ghost use Rattle.expr.specs.value_sets.Order.{IsOrderOf, is_among, value_at};

use std::alloc::{AllocError, Global};
use std::cmp::Ordering;
use values::{Value, compare};

/// The first so many places.
fn places(alloc: Global, count: usize) -> Result<Vec<usize>, AllocError>
    ensures { IfOk result (λ places. (at : _) → at < count → Contains places.items at) }
{
    let mut places = Vec::with_capacity(alloc, count)?;
    for at in 0..count {
        places.push(at)?;
    }
    Ok(places)
}

/// The value at a place against another.
fn compare_at(values: &[Value], at: usize, value: &Value) -> Ordering
    ensures { result ≡ datum_cmp (value_at (map datum_of values.now) at) (datum_of value.now) }
{
    compare(values.get(at).unwrap_or(&Value::Null), value)
}

/// The values at two places.
fn compare_places(values: &[Value], a: usize, b: usize) -> Ordering
    ensures { result ≡ datum_cmp (value_at (map datum_of values.now) a) (value_at (map datum_of values.now) b) }
{
    compare_at(values, a, values.get(b).unwrap_or(&Value::Null))
}

/// Puts places in the order of the values there.
fn sort(values: &[Value], order: &mut Vec<usize>)
    ensures same { IsPermutation order.old.items order.new.items }
    ensures ascends { IsSortedByKey (value_at (map datum_of values.now)) datum_cmp order.new.items }
{
    order.sort_unstable_by(|a, b| compare_places(values, *a, *b));
}

/// The places of these values, in the order of the values.
pub(crate) fn order_of(alloc: Global, values: &[Value]) -> Result<Vec<usize>, AllocError>
    ensures { IfOk result (λ order. IsOrderOf (map datum_of values.now) order.items) }
{
    let mut order = places(alloc, values.len())?;
    sort(values, &mut order);
    Ok(order)
}

/// Whether a value that is not NULL is one of these.
pub(crate) fn is_among(values: &[Value], order: &[usize], value: &Value) -> bool
    requires order { IsOrderOf (map datum_of values.now) order.now }
    requires known { datum_of value.now ≢ null }
    ensures { result ≡ is_among (datum_of value.now) (map datum_of values.now) }
{
    order
        .binary_search_by(|at| compare_at(values, *at, value))
        .is_ok()
}
