//! Rows compared by the values of ORDER BY on them.
ghost use Rattle.std.specs.Prelude.{◌≡◌, ◌<◌, drop, length, map, slice_index_or};
ghost use Rattle.values.specs.Datum.{datum_of};
ghost use Rattle.semantics.specs.Sequence.{directed_cmp, keys_cmp, null_rank, value_at};
ghost use Rattle.resolver_terms.specs.SelectView.{direction_of};

use sql_reader_syntax::Direction;
use std::cmp::Ordering;
use values::{Value, compare};

/// Where NULL stands beside other values.
#[tactic(auto, unfolding(expr::specs::operations::Operations::is_null))]
fn rank(nulls_first: bool, value: &Value) -> u8
    ensures { result ≡ null_rank nulls_first (datum_of value.now) }
{
    match value {
        Value::Null if nulls_first => 0,
        Value::Null => 2,
        _ => 1,
    }
}

/// Two values by a direction: NULLs first or last, and the others ascending or descending. (SELECT, "The ORDER BY clause")
pub fn compare_by(direction: Direction, a: &Value, b: &Value) -> Ordering
    ensures { result ≡ directed_cmp (direction_of direction) (datum_of a.now) (datum_of b.now) }
{
    match rank(direction.nulls_first, a).cmp(&rank(direction.nulls_first, b)) {
        Ordering::Equal if direction.descending => compare(b, a),
        Ordering::Equal => compare(a, b),
        order => order,
    }
}

/// The values at a place of two rows, by its direction; past its end a row has NULLs.
fn compare_at(directions: &[Direction], a: &[Value], b: &[Value], at: usize) -> Ordering
    requires { at < length directions.now }
    ensures { (d : Direction) → result ≡ directed_cmp (direction_of (slice_index_or directions.now at d)) (value_at (map datum_of a.now) at) (value_at (map datum_of b.now) at) }
{
    let null = Value::Null;
    compare_by(
        directions[at],
        a.get(at).unwrap_or(&null),
        b.get(at).unwrap_or(&null),
    )
}

/// Rows of keys from a place on, by the first value in which they differ, each by its direction.
pub fn compare_keys_from(
    directions: &[Direction],
    a: &[Value],
    b: &[Value],
    from: usize,
) -> Ordering
    ensures { result ≡ keys_cmp (drop from (map direction_of directions.now)) (drop from (map datum_of a.now)) (drop from (map datum_of b.now)) }
{
    for at in from..directions.len() {
        let ordering = compare_at(directions, a, b, at);
        if ordering != Ordering::Equal {
            return ordering;
        }
    }
    Ordering::Equal
}

/// Rows of keys, by the first value in which they differ, each by its direction.
pub fn compare_keys(directions: &[Direction], a: &[Value], b: &[Value]) -> Ordering
    ensures { result ≡ keys_cmp (map direction_of directions.now) (map datum_of a.now) (map datum_of b.now) }
{
    compare_keys_from(directions, a, b, 0)
}
