//! Whether two calls over windows are the same.
ghost use Rattle.std.specs.Prelude.{◌≡◌, ◌↔◌, IsTrue, map};
ghost use Rattle.semantics_names.specs.Places.{exclusion_of, unit_of};
ghost use Rattle.resolver_terms.specs.SelectView.{call_of, edge_of, frame_of, function_of, sort_of, window_of};

use crate::same_terms::aggregates::same_aggregate;
use crate::{Edge, Frame, SortTerm, Window, WindowCall, WindowFunction};
use expr_types::{same_tree, same_tree_lists};
use sql_reader_syntax::{Exclusion, FrameUnit};

fn same_sort(a: &SortTerm, b: &SortTerm) -> bool
    ensures { IsTrue result ↔ sort_of a.now ≡ sort_of b.now }
{
    a.direction == b.direction && same_tree(&a.term, &b.term)
}

fn same_order(a: &[SortTerm], b: &[SortTerm]) -> bool
    ensures { IsTrue result ↔ map sort_of a.now ≡ map sort_of b.now }
{
    let mut rest = b;
    for x in a {
        match rest.split_first() {
            Some((y, later)) if same_sort(x, y) => rest = later,
            _ => return false,
        }
    }
    rest.is_empty()
}

fn same_unit(a: FrameUnit, b: FrameUnit) -> bool
    ensures { IsTrue result ↔ unit_of a ≡ unit_of b }
{
    a == b
}

fn same_edge(a: Edge, b: Edge) -> bool
    ensures { IsTrue result ↔ edge_of a ≡ edge_of b }
{
    a == b
}

fn same_exclusion(a: Exclusion, b: Exclusion) -> bool
    ensures { IsTrue result ↔ exclusion_of a ≡ exclusion_of b }
{
    a == b
}

fn same_frame(a: Frame, b: Frame) -> bool
    ensures { IsTrue result ↔ frame_of a ≡ frame_of b }
{
    same_unit(a.unit, b.unit)
        && same_edge(a.start, b.start)
        && same_edge(a.end, b.end)
        && same_exclusion(a.exclusion, b.exclusion)
}

fn same_window(a: &Window, b: &Window) -> bool
    ensures { IsTrue result ↔ window_of a.now ≡ window_of b.now }
{
    same_tree_lists(a.partition.as_slice(), b.partition.as_slice())
        && same_order(a.order.as_slice(), b.order.as_slice())
        && same_frame(a.frame, b.frame)
}

fn same_function(a: &WindowFunction, b: &WindowFunction) -> bool
    ensures { IsTrue result ↔ function_of a.now ≡ function_of b.now }
{
    match a {
        WindowFunction::Aggregate(x) => {
            matches!(b, WindowFunction::Aggregate(y) if same_aggregate(x, y))
        }
        WindowFunction::RowNumber => matches!(b, WindowFunction::RowNumber),
        WindowFunction::Rank => matches!(b, WindowFunction::Rank),
        WindowFunction::DenseRank => matches!(b, WindowFunction::DenseRank),
        WindowFunction::NTile(m) => matches!(b, WindowFunction::NTile(n) if m == n),
        WindowFunction::Lag(x, m, s) => {
            matches!(b, WindowFunction::Lag(y, n, t) if m == n && same_tree(x, y) && same_tree(s, t))
        }
        WindowFunction::Lead(x, m, s) => {
            matches!(b, WindowFunction::Lead(y, n, t) if m == n && same_tree(x, y) && same_tree(s, t))
        }
        WindowFunction::FirstValue(x) => {
            matches!(b, WindowFunction::FirstValue(y) if same_tree(x, y))
        }
        WindowFunction::LastValue(x) => {
            matches!(b, WindowFunction::LastValue(y) if same_tree(x, y))
        }
        WindowFunction::NthValue(x, m) => {
            matches!(b, WindowFunction::NthValue(y, n) if m == n && same_tree(x, y))
        }
    }
}

/// Whether two calls are the same function over the same window.
pub fn same_call(a: &WindowCall, b: &WindowCall) -> bool
    ensures { IsTrue result ↔ call_of a.now ≡ call_of b.now }
{
    same_window(&a.window, &b.window) && same_function(&a.function, &b.function)
}
