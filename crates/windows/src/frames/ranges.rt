//! The frame of a row as ranges of places.
ghost use Rattle.std.specs.Prelude.{◌<◌, length, not};
ghost use Rattle.semantics.specs.Windows.{after_edge, before_edge, in_frame, unless};
ghost use Rattle.semantics.specs.Windows as windows;
ghost use Rattle.semantics_names.specs.Places.{unit_of};
ghost use Rattle.resolver_terms.specs.SelectView.{edge_of, frame_of};
ghost use Rattle.windows_groups.specs.window_order.Placed.{keys_in, ways_in};
ghost use Rattle.windows.specs.frames.Cuts.{CutsPlaces};
ghost use Rattle.windows.specs.frames.Ranges.{IsUnion};

use crate::frames::cuts::{Side, cut};
use crate::frames::edges::distance;
use crate::frames::excluded::gap_of;
use resolver_terms::{Edge, Frame};
use sql_reader_syntax::FrameUnit;
use windows_groups::Sequence;

/// Up to three ranges of places, one behind the other: `start..from`, `middle..after` and `to..end`. What EXCLUDE takes
/// out of a frame lies between them.
#[derive(Clone, Copy, Debug)]
pub struct Ranges {
    pub start: usize,
    pub from: usize,
    pub middle: usize,
    pub after: usize,
    pub to: usize,
    pub end: usize,
}

/// The first place that an edge leaves in the frame.
fn start_of(sequence: &Sequence, unit: FrameUnit, edge: Edge, here: usize) -> usize
    requires { here < length (keys_in sequence.now) }
    ensures { CutsPlaces (λ k. not (unless (λ by. before_edge (ways_in sequence.now) (unit_of unit) (keys_in sequence.now) here by k) (windows.distance (edge_of edge)))) (length (keys_in sequence.now)) result }
{
    match distance(edge) {
        Some(by) => cut(sequence, unit, Side::Start, here, by),
        None => 0,
    }
}

/// The place from which on an edge ends the frame.
fn end_of(sequence: &Sequence, unit: FrameUnit, edge: Edge, here: usize) -> usize
    requires { here < length (keys_in sequence.now) }
    ensures { CutsPlaces (λ k. unless (λ by. after_edge (ways_in sequence.now) (unit_of unit) (keys_in sequence.now) here by k) (windows.distance (edge_of edge))) (length (keys_in sequence.now)) result }
{
    match distance(edge) {
        Some(by) => cut(sequence, unit, Side::End, here, by),
        None => sequence.entries.len(),
    }
}

/// The frame of a row. (Window Functions, "Frame Specifications")
pub fn ranges_of(sequence: &Sequence, frame: Frame, here: usize) -> Ranges
    requires { here < length (keys_in sequence.now) }
    ensures { IsUnion (in_frame (ways_in sequence.now) (frame_of frame) (keys_in sequence.now) here) result (length (keys_in sequence.now)) }
{
    let start = start_of(sequence, frame.unit, frame.start, here);
    let end = end_of(sequence, frame.unit, frame.end, here).max(start);
    let gap = gap_of(sequence, frame.exclusion, here);
    Ranges {
        start,
        from: gap.first.max(start).min(end),
        middle: gap.middle.max(start).min(end),
        after: gap.after.max(start).min(end),
        to: gap.past.max(start).min(end),
        end,
    }
}
