//! The first place of a sequence that an edge leaves in the frame, or out of it.
ghost use Rattle.std.specs.Prelude.{◌≡◌, ◌<◌, ◌+ℤ◌, if◌then◌else◌, int_le, length, not, pos};
ghost use Rattle.semantics.specs.Windows.{edge_key, peer_group, row_at};
ghost use Rattle.semantics.specs.Sequence.{keys_cmp};
ghost use Rattle.semantics.specs.Query as query;
ghost use Rattle.semantics_names.specs.Places.{unit_of};
ghost use Rattle.windows_groups.specs.window_order.Placed.{keys_in, ways_in};
ghost use Rattle.windows.specs.frames.Cuts.{CutsPlaces, IsSpan, ahead, is_end};

use crate::frames::edges::compare_to_edge;
use sql_reader_syntax::FrameUnit;
use std::cmp::Ordering;
use windows_groups::Sequence;

/// Which edge of a frame: places ahead of its start are out of the frame, places up to its end are in it.
#[derive(Clone, Copy, Debug)]
pub(crate) enum Side {
    Start,
    End,
}

/// The places before a number.
fn place_cut(count: usize, place: i128) -> usize
    ensures { CutsPlaces (λ k. not (int_le place (pos k))) count result }
{
    place.clamp(0, count as i128) as usize
}

/// The places of the groups before a number.
pub(crate) fn group_cut(sequence: &Sequence, group: i128) -> usize
    ensures { CutsPlaces (λ k. not (int_le group (pos (peer_group (ways_in sequence.now) (keys_in sequence.now) k)))) (length (keys_in sequence.now)) result }
{
    if group <= 0 {
        return 0;
    }
    match usize::try_from(group) {
        Ok(group) => match sequence.groups.starts.get(group) {
            Some(start) => *start,
            None => sequence.entries.len(),
        },
        Err(_) => sequence.entries.len(),
    }
}

/// How the keys at a place stand to an edge of RANGE.
fn compare_at_edge(sequence: &Sequence, here: usize, by: i128, at: usize) -> Ordering
    requires here { here < length (keys_in sequence.now) }
    requires at { at < length (keys_in sequence.now) }
    requires span { IsSpan by }
    ensures { result ≡ keys_cmp (ways_in sequence.now) (row_at (keys_in sequence.now) at) (edge_key (ways_in sequence.now) by (row_at (keys_in sequence.now) here)) }
{
    let here = sequence.entries[here].keys.as_slice();
    let keys = sequence.entries[at].keys.as_slice();
    compare_to_edge(sequence.directions, keys, here, by)
}

/// Whether a place stands ahead of an edge of RANGE.
fn is_ahead(sequence: &Sequence, side: Side, here: usize, by: i128, at: usize) -> bool
    requires here { here < length (keys_in sequence.now) }
    requires at { at < length (keys_in sequence.now) }
    requires span { IsSpan by }
    ensures { result ≡ ahead side (ways_in sequence.now) query.FrameUnit.range (keys_in sequence.now) here by at }
{
    let order = compare_at_edge(sequence, here, by, at);
    match side {
        Side::Start => order.is_lt(),
        Side::End => order.is_le(),
    }
}

/// The places ahead of an edge of RANGE, by binary search.
fn key_cut(sequence: &Sequence, side: Side, here: usize, by: i128) -> usize
    requires here { here < length (keys_in sequence.now) }
    requires span { IsSpan by }
    ensures { CutsPlaces (ahead side (ways_in sequence.now) query.FrameUnit.range (keys_in sequence.now) here by) (length (keys_in sequence.now)) result }
{
    let mut low = 0;
    let mut high = sequence.entries.len();
    while low < high {
        let middle = low + (high - low) / 2;
        if is_ahead(sequence, side, here, by, middle) {
            low = middle + 1;
        } else {
            high = middle;
        }
    }
    low
}

/// A number of places or groups, such that those before it are ahead of an edge.
fn counted(side: Side, here: usize, by: i128) -> i128
    requires { IsSpan by }
    ensures { result ≡ (if is_end side then (pos here +ℤ by) +ℤ pos 1 else (pos here +ℤ by)) }
{
    match side {
        Side::Start => here as i128 + by,
        Side::End => here as i128 + by + 1,
    }
}

/// The places ahead of an edge of GROUPS.
fn peer_cut(sequence: &Sequence, side: Side, here: usize, by: i128) -> usize
    requires here { here < length (keys_in sequence.now) }
    requires span { IsSpan by }
    ensures groups { CutsPlaces (ahead side (ways_in sequence.now) query.FrameUnit.groups (keys_in sequence.now) here by) (length (keys_in sequence.now)) result }
    ensures none { by ≡ pos 0 → CutsPlaces (ahead side (ways_in sequence.now) query.FrameUnit.range (keys_in sequence.now) here by) (length (keys_in sequence.now)) result }
{
    group_cut(sequence, counted(side, sequence.groups.numbers[here], by))
}

/// The places ahead of an edge of RANGE; where there is no distance, an edge stands at the peers of the row.
fn range_cut(sequence: &Sequence, side: Side, here: usize, by: i128) -> usize
    requires here { here < length (keys_in sequence.now) }
    requires span { IsSpan by }
    ensures { CutsPlaces (ahead side (ways_in sequence.now) query.FrameUnit.range (keys_in sequence.now) here by) (length (keys_in sequence.now)) result }
{
    if by == 0 {
        peer_cut(sequence, side, here, by)
    } else {
        key_cut(sequence, side, here, by)
    }
}

/// The places ahead of an edge of ROWS.
fn row_cut(sequence: &Sequence, side: Side, here: usize, by: i128) -> usize
    requires here { here < length (keys_in sequence.now) }
    requires span { IsSpan by }
    ensures { CutsPlaces (ahead side (ways_in sequence.now) query.FrameUnit.rows (keys_in sequence.now) here by) (length (keys_in sequence.now)) result }
{
    place_cut(sequence.entries.len(), counted(side, here, by))
}

/// The places ahead of an edge at a distance. (Window Functions, "Frame Boundaries")
pub(crate) fn cut(sequence: &Sequence, unit: FrameUnit, side: Side, here: usize, by: i128) -> usize
    requires here { here < length (keys_in sequence.now) }
    requires span { IsSpan by }
    ensures { CutsPlaces (ahead side (ways_in sequence.now) (unit_of unit) (keys_in sequence.now) here by) (length (keys_in sequence.now)) result }
{
    match unit {
        FrameUnit::Rows => row_cut(sequence, side, here, by),
        FrameUnit::Range => range_cut(sequence, side, here, by),
        FrameUnit::Groups => peer_cut(sequence, side, here, by),
    }
}
