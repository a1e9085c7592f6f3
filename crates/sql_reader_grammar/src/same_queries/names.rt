//! Names, and what else has no expression in it.
ghost use Rattle.std.specs.Prelude.{◌≡◌, IsTrue, map, option_map, string_bytes};
ghost use Rattle.sql_reader_syntax.specs.NameView.{name_of};

use sql_reader_syntax::{Edge, Frame, ResultName};

pub(crate) fn same_option(a: &Option<String>, b: &Option<String>) -> bool
    ensures { IsTrue result → option_map (λ name. string_bytes name) a.now ≡ option_map (λ name. string_bytes name) b.now }
{
    match (a, b) {
        (None, None) => true,
        (Some(x), Some(y)) => x == y,
        _ => false,
    }
}

pub(crate) fn same_names(a: &[String], b: &[String]) -> bool
    ensures { IsTrue result → map (λ name. string_bytes name) a.now ≡ map (λ name. string_bytes name) b.now }
{
    let mut rest = b;
    for x in a {
        match rest.split_first() {
            Some((y, later)) if x == y => rest = later,
            _ => return false,
        }
    }
    rest.is_empty()
}

/// Whether two result columns are called the same, both by an alias or both by their text.
pub(crate) fn same_result_name(a: &ResultName, b: &ResultName) -> bool
    ensures { IsTrue result → name_of a.now ≡ name_of b.now }
{
    match a {
        ResultName::Alias(x) => matches!(b, ResultName::Alias(y) if x == y),
        ResultName::SourceText(x) => matches!(b, ResultName::SourceText(y) if x == y),
    }
}

fn same_edge(a: Edge, b: Edge) -> bool
    ensures { IsTrue result → a ≡ b }
{
    a == b
}

pub(crate) fn same_frame(a: &Option<Frame>, b: &Option<Frame>) -> bool
    ensures { IsTrue result → a.now ≡ b.now }
{
    match (a, b) {
        (None, None) => true,
        (Some(x), Some(y)) => {
            x.unit == y.unit
                && same_edge(x.start, y.start)
                && same_edge(x.end, y.end)
                && x.exclusion == y.exclusion
        }
        _ => false,
    }
}
