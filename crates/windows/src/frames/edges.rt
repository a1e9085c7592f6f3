//! The edges of a frame.
ghost use Rattle.std.specs.Prelude.{◌≡◌, IfSome, map, slice_index_or};
ghost use Rattle.values.specs.Datum.{datum_of, int};
ghost use Rattle.semantics.specs.Sequence.{directed_cmp, keys_cmp, value_at};
ghost use Rattle.semantics.specs.Windows.{edge_key, moved};
ghost use Rattle.semantics.specs.Windows as windows;
ghost use Rattle.resolver_terms.specs.SelectView.{direction_of, edge_of};
ghost use Rattle.windows.specs.frames.Cuts.{IsSpan};

use resolver_terms::Edge;
use sql_reader_syntax::Direction;
use std::cmp::Ordering;
use values::Value;
use windows_groups::{compare_by, compare_keys_from};

/// How far an edge stands from the current row, and nothing where it is unbounded.
pub(crate) fn distance(edge: Edge) -> Option<i128>
    ensures value { result ≡ windows.distance (edge_of edge) }
    ensures span { IfSome result IsSpan }
{
    match edge {
        Edge::UnboundedPreceding => None,
        Edge::Preceding(count) => Some(-i128::from(count)),
        Edge::CurrentRow => Some(0),
        Edge::Following(count) => Some(i128::from(count)),
        Edge::UnboundedFollowing => None,
    }
}

/// A number compared with another that is moved along the order.
fn compare_numbers(descending: bool, number: i64, here: i64, by: i128) -> Ordering
    requires { IsSpan by }
    ensures { (d : Direction) → d.descending ≡ descending → result ≡ directed_cmp (direction_of d) (int number) (moved descending by (int here)) }
{
    let number = i128::from(number);
    let here = i128::from(here);
    if descending {
        (here - by).cmp(&number)
    } else {
        number.cmp(&(here + by))
    }
}

/// A value compared with another that is moved along the order.
fn compare_moved(direction: Direction, value: &Value, here: &Value, by: i128) -> Ordering
    requires { IsSpan by }
    ensures { result ≡ directed_cmp (direction_of direction) (datum_of value.now) (moved direction.descending by (datum_of here.now)) }
{
    match here {
        Value::Int(from) => match value {
            Value::Int(number) => compare_numbers(direction.descending, *number, *from, by),
            _ => compare_by(direction, value, here),
        },
        unmoved => compare_by(direction, value, unmoved),
    }
}

/// The first value of a row of keys, or another where there is none.
fn first_or<'a>(keys: &'a [Value], other: &'a Value) -> &'a Value
    ensures { datum_of result.now ≡ slice_index_or (map datum_of keys.now) 0 (datum_of other.now) }
{
    match keys.first() {
        Some(key) => key,
        None => other,
    }
}

/// The first values of two rows of keys, the second moved along the order; a row of none has NULL.
fn compare_first_moved(direction: Direction, keys: &[Value], here: &[Value], by: i128) -> Ordering
    requires { IsSpan by }
    ensures { result ≡ directed_cmp (direction_of direction) (value_at (map datum_of keys.now) 0) (moved direction.descending by (value_at (map datum_of here.now) 0)) }
{
    let null = Value::Null;
    compare_moved(direction, first_or(keys, &null), first_or(here, &null), by)
}

/// The keys of a row compared with an edge of RANGE. (Window Functions, "Frame Boundaries")
pub(crate) fn compare_to_edge(
    directions: &[Direction],
    keys: &[Value],
    here: &[Value],
    by: i128,
) -> Ordering
    requires { IsSpan by }
    ensures { result ≡ keys_cmp (map direction_of directions.now) (map datum_of keys.now) (edge_key (map direction_of directions.now) by (map datum_of here.now)) }
{
    match directions.first() {
        None => Ordering::Equal,
        Some(direction) => match compare_first_moved(*direction, keys, here, by) {
            Ordering::Equal => compare_keys_from(directions, keys, here, 1),
            order => order,
        },
    }
}
