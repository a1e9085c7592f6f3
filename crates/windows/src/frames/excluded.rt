//! What EXCLUDE takes out of a frame.
ghost use Rattle.std.specs.Prelude.{◌<◌, ◌≤◌, ◌==◌, length};
ghost use Rattle.semantics.specs.Windows.{are_peers, excludes};
ghost use Rattle.semantics_names.specs.Places.{exclusion_of};
ghost use Rattle.windows_groups.specs.window_order.Placed.{keys_in, ways_in};
ghost use Rattle.windows.specs.frames.Ranges.{IsTaken, IsRangeOf};

use crate::frames::cuts::group_cut;
use sql_reader_syntax::Exclusion;
use windows_groups::Sequence;

/// What is taken out of a frame: the places `first..middle` and `after..past`.
#[derive(Clone, Copy, Debug)]
pub(crate) struct Gap {
    pub(crate) first: usize,
    pub(crate) middle: usize,
    pub(crate) after: usize,
    pub(crate) past: usize,
}

/// The peers of a row, from the first on and up to the place behind the last.
fn peers_of(sequence: &Sequence, here: usize) -> (usize, usize)
    requires { here < length (keys_in sequence.now) }
    ensures peers { IsRangeOf (are_peers (ways_in sequence.now) (keys_in sequence.now) here) result.0 result.1 (length (keys_in sequence.now)) }
    ensures first { result.0 ≤ here }
    ensures last { here < result.1 }
{
    let group = sequence.groups.numbers[here] as i128;
    (group_cut(sequence, group), group_cut(sequence, group + 1))
}

/// What EXCLUDE takes out of the frame of a row. (Window Functions, "The EXCLUDE Clause")
pub(crate) fn gap_of(sequence: &Sequence, exclusion: Exclusion, here: usize) -> Gap
    requires { here < length (keys_in sequence.now) }
    ensures { IsTaken (λ k. excludes (exclusion_of exclusion) (here == k) (are_peers (ways_in sequence.now) (keys_in sequence.now) here k)) result (length (keys_in sequence.now)) }
{
    match exclusion {
        Exclusion::NoOthers => Gap {
            first: 0,
            middle: 0,
            after: 0,
            past: 0,
        },
        Exclusion::CurrentRow => Gap {
            first: here,
            middle: here,
            after: here,
            past: here + 1,
        },
        Exclusion::Group => {
            let (first, past) = peers_of(sequence, here);
            Gap {
                first,
                middle: first,
                after: first,
                past,
            }
        }
        Exclusion::Ties => {
            let (first, past) = peers_of(sequence, here);
            Gap {
                first,
                middle: here,
                after: here + 1,
                past,
            }
        }
    }
}
