//! The frames that there can be.
ghost use Rattle.std.specs.Prelude.{◌≡◌, map};
ghost use Rattle.semantics.specs.Typed.{edge_rank};
ghost use Rattle.semantics_names.specs.Types as spec;
ghost use Rattle.semantics_names.specs.Places.{unit_of};
ghost use Rattle.resolver_terms.specs.SelectView.{edge_of, frame_of, sort_of};

use expr_types::RowTypes;
use resolver_terms::{Edge, Frame, SortTerm};
use sql_reader_syntax::FrameUnit;
use values::Ty;

// Where an edge stands in the list of edges.
fn edge_rank(edge: Edge) -> u8
    ensures { result ≡ edge_rank (edge_of edge) }
{
    match edge {
        Edge::UnboundedPreceding => 0,
        Edge::Preceding(_) => 1,
        Edge::CurrentRow => 2,
        Edge::Following(_) => 3,
        Edge::UnboundedFollowing => 4,
    }
}

fn is_distance(edge: Edge) -> bool
    ensures { result ≡ spec.is_distance (edge_of edge) }
{
    match edge {
        Edge::Preceding(_) | Edge::Following(_) => true,
        Edge::UnboundedPreceding | Edge::CurrentRow | Edge::UnboundedFollowing => false,
    }
}

// Whether what has this type may stand for a whole number.
fn is_whole(found: Option<Ty>) -> bool
    ensures { result ≡ spec.is_whole found }
{
    match found {
        Some(Ty::Int | Ty::Null) => true,
        Some(Ty::Text | Ty::Blob) | None => false,
    }
}

// Whether ORDER BY is one term, a whole number.
fn is_one_number(over: &RowTypes<'_>, order: &[SortTerm]) -> bool
    ensures { result ≡ spec.is_one_number over.now.answers.now over.now.columns.now (map sort_of order.now) }
{
    match order {
        [only] => is_whole(over.type_of(&only.term)),
        _ => false,
    }
}

// Whether ORDER BY is one that the frame's unit can be told by.
fn unit_fits(over: &RowTypes<'_>, order: &[SortTerm], frame: &Frame) -> bool
    ensures { result ≡ spec.unit_fits over.now.answers.now over.now.columns.now (map sort_of order.now)
        (unit_of frame.now.unit) (edge_of frame.now.start) (edge_of frame.now.end) }
{
    match frame.unit {
        FrameUnit::Rows => true,
        FrameUnit::Range => {
            if is_distance(frame.start) || is_distance(frame.end) {
                is_one_number(over, order)
            } else {
                true
            }
        }
        FrameUnit::Groups => !order.is_empty(),
    }
}

/// Whether there can be such a frame behind this ORDER BY. (Window Functions, "Frame Specifications")
pub(crate) fn is_frame(over: &RowTypes<'_>, order: &[SortTerm], frame: &Frame) -> bool
    ensures { result ≡ spec.is_frame over.now.answers.now over.now.columns.now (map sort_of order.now) (frame_of frame.now) }
{
    let start = edge_rank(frame.start);
    let end = edge_rank(frame.end);
    start < 4 && 0 < end && start <= end && unit_fits(over, order, frame)
}
