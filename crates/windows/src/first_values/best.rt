//! Which of two values comes first.
ghost use Rattle.std.specs.Prelude.{◌≡◌, ◌<◌, ◌==◌, ◌||◌, ℕ, Bool, IfSome, length, map};
ghost use Rattle.values.specs.Datum.{datum_of};
ghost use Rattle.semantics.specs.Sequence.{value_at};
ghost use Rattle.windows.specs.first_values.Best.{IsBest, side_cmp};

use std::cmp::Ordering;
use values::{Value, compare};

/// Whether the least or the greatest comes first. (Built-in Aggregate Functions)
#[derive(Clone, Copy, Debug, PartialEq, Eq)]
pub enum Side {
    Least,
    Greatest,
}

/// The values at two places, in the order of a side.
fn compare_at(side: Side, values: &[Value], a: usize, b: usize) -> Ordering
    requires a { a < length values.now }
    requires b { b < length values.now }
    ensures { result ≡ side_cmp side (value_at (map datum_of values.now) a) (value_at (map datum_of values.now) b) }
{
    match side {
        Side::Least => compare(&values[a], &values[b]),
        Side::Greatest => compare(&values[b], &values[a]),
    }
}

/// The first of the values at one place, which is none where it is NULL.
pub fn own_place(values: &[Value], at: usize) -> Option<usize>
    requires { at < length values.now }
    ensures first { (side : Side) → IsBest side (map datum_of values.now) (λ k. k == at) result }
    ensures within { IfSome result (λ p. p < length values.now) }
{
    match &values[at] {
        Value::Null => None,
        _ => Some(at),
    }
}

/// The place of the first of the values at two sets of places, from those of each.
pub fn better(side: Side, values: &[Value], a: Option<usize>, b: Option<usize>) -> Option<usize>
    requires a { IfSome a (λ p. p < length values.now) }
    requires b { IfSome b (λ p. p < length values.now) }
    ensures first { (S T : ℕ → Bool) → IsBest side (map datum_of values.now) S a → IsBest side (map datum_of values.now) T b
        → IsBest side (map datum_of values.now) (λ k. S k || T k) result }
    ensures within { IfSome result (λ p. p < length values.now) }
{
    let (first, second) = match (a, b) {
        (Some(first), Some(second)) => (first, second),
        (None, _) => return b,
        _ => return a,
    };
    if compare_at(side, values, second, first).is_lt() {
        Some(second)
    } else {
        Some(first)
    }
}
