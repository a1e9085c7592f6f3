//! Frames.
ghost use Rattle.std.specs.Prelude.{◌≡◌, option_map};
ghost use Rattle.semantics_names.specs.Places as spec;
ghost use Rattle.resolver_terms.specs.Outcome.{Gives};
ghost use Rattle.resolver_terms.specs.SelectView.{edge_of, frame_of};
ghost use Rattle.resolver_selects.specs.window_names.Numbers.{natural};

use resolver_terms::{Edge, Frame};
use sql_reader_syntax::{Exclusion, FrameUnit};
use values::Fault;

/// A number that isn't negative, as it is written.
pub fn natural(n: i64) -> Option<u64>
    ensures { result ≡ natural n }
{
    if n < 0 { None } else { Some(n as u64) }
}

// An edge, whose distance may not be negative.
fn edge(written: sql_reader_syntax::Edge) -> Option<Edge>
    ensures { option_map edge_of result ≡ spec.edge_of written }
{
    match written {
        sql_reader_syntax::Edge::UnboundedPreceding => Some(Edge::UnboundedPreceding),
        sql_reader_syntax::Edge::Preceding(n) => Some(Edge::Preceding(natural(n)?)),
        sql_reader_syntax::Edge::CurrentRow => Some(Edge::CurrentRow),
        sql_reader_syntax::Edge::Following(n) => Some(Edge::Following(natural(n)?)),
        sql_reader_syntax::Edge::UnboundedFollowing => Some(Edge::UnboundedFollowing),
    }
}

// RANGE BETWEEN UNBOUNDED PRECEDING AND CURRENT ROW.
fn default_frame() -> Frame
    ensures { frame_of result ≡ spec.default_frame }
{
    Frame {
        unit: FrameUnit::Range,
        start: Edge::UnboundedPreceding,
        end: Edge::CurrentRow,
        exclusion: Exclusion::NoOthers,
    }
}

/// The frame of a window, where one is written, or else the default one. The fault is `BadFrame` where a distance is negative.
/// (Window Functions, "Frame Specifications")
pub(crate) fn frame(written: Option<sql_reader_syntax::Frame>) -> Result<Frame, Fault>
    ensures { Gives frame_of result (spec.frame_of written) }
{
    let Some(written) = written else {
        return Ok(default_frame());
    };
    let Some(start) = edge(written.start) else {
        return Err(Fault::BadFrame);
    };
    let Some(end) = edge(written.end) else {
        return Err(Fault::BadFrame);
    };
    Ok(Frame {
        unit: written.unit,
        start,
        end,
        exclusion: written.exclusion,
    })
}
