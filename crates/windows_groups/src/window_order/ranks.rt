//! Numbers that decide most comparisons of an order.
ghost use Rattle.std.specs.Prelude.{◌≡◌, ◌<◌, ℕ, IsTrue, map, slice_index};
ghost use Rattle.std.specs.Int.{from_be_bytes, w64};
ghost use Rattle.values.specs.Datum.{datum_of, datum_of_ref};
ghost use Rattle.semantics.specs.Sequence.{value_at};
ghost use Rattle.resolver_terms.specs.SelectView.{direction_of};
ghost use Rattle.windows_groups.specs.window_order.Ranks.{IsNumber, ascending_rank, rank_of};

use sql_reader_syntax::Direction;
use values::{Value, ValueRef};

/// Less than the rank of another value only where the value comes before it. What ranks leave open, values that tie and texts
/// that begin alike, is told by the values; among numbers and NULL they leave nothing open.
#[derive(Clone, Copy, Default, PartialEq, Eq, PartialOrd, Ord)]
pub struct Rank {
    /// NULLs first or last, and between them integers, texts and blobs.
    pub class: u8,
    /// The integer, or the first bytes.
    pub bits: u64,
}

/// The first eight bytes; those that lack are zeros.
fn front_of(bytes: &[u8]) -> [u8; 8]
    ensures { (at : ℕ) → at < 8 → slice_index result at ≡ slice_index bytes.now at }
{
    let mut front = [0u8; 8];
    let count = bytes.len().min(8);
    front[..count].copy_from_slice(&bytes[..count]);
    front
}

/// The first eight bytes as a number, the most significant first; those that lack are zeros.
fn front_number(bytes: &[u8]) -> u64
    ensures { result ≡ from_be_bytes w64 bytes.now }
{
    u64::from_be_bytes(front_of(bytes))
}

/// The rank of a value in ascending order, NULLs first.
fn rank_ascending(value: &Value) -> Rank
    ensures { result ≡ ascending_rank (datum_of value.now) }
{
    match value {
        Value::Null => Rank { class: 0, bits: 0 },
        Value::Int(number) => Rank {
            class: 1,
            bits: number.cast_unsigned().wrapping_add(1 << 63),
        },
        Value::Text(text) => Rank {
            class: 2,
            bits: front_number(text.as_bytes()),
        },
        Value::Blob(bytes) => Rank {
            class: 3,
            bits: front_number(bytes.as_slice()),
        },
    }
}

/// The rank of a value by a direction.
fn rank_by(direction: Direction, value: &Value) -> Rank
    ensures { result ≡ rank_of (direction_of direction) (datum_of value.now) }
{
    let Rank { class, bits } = rank_ascending(value);
    match class {
        0 if direction.nulls_first => Rank { class, bits },
        0 => Rank { class: 4, bits },
        _ if direction.descending => Rank {
            class: 4u8.saturating_sub(class),
            bits: !bits,
        },
        _ => Rank { class, bits },
    }
}

/// The rank of the value at a place of a row by a direction; past its end a row has NULLs.
pub fn rank_at(direction: Direction, row: &[Value], at: usize) -> Rank
    ensures { result ≡ rank_of (direction_of direction) (value_at (map datum_of row.now) at) }
{
    rank_by(direction, row.get(at).unwrap_or(&Value::Null))
}

/// Whether a value is a number or NULL.
fn is_number(value: ValueRef<'_>) -> bool
    ensures { IsTrue result → IsNumber (datum_of_ref value.entry) }
{
    match value {
        ValueRef::Null => true,
        ValueRef::Int(_number) => true,
        _ => false,
    }
}

/// Whether the value at a place of a row is a number or NULL: among such values ranks tell the whole order.
pub fn is_number_at(row: &[Value], at: usize) -> bool
    ensures { IsTrue result → IsNumber (value_at (map datum_of row.now) at) }
{
    is_number(row.get(at).unwrap_or(&Value::Null).as_ref())
}
