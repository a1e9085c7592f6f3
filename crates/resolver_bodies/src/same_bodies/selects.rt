//! Whether two SELECTs are the same, but for their FROM.
ghost use Rattle.std.specs.Prelude.{◌≡◌, ◌↔◌, IsTrue, map, option_map};
ghost use Rattle.resolver_terms.specs.SelectView.{aggregate_of, call_of, grouping_of, select_of};

use expr_types::{same_tree, same_tree_lists};
use resolver_terms::{Aggregate, Grouping, Select, WindowCall, same_aggregate, same_call};

fn same_aggregates(a: &[Aggregate], b: &[Aggregate]) -> bool
    ensures { IsTrue result ↔ map aggregate_of a.now ≡ map aggregate_of b.now }
{
    let mut rest = b;
    for x in a {
        match rest.split_first() {
            Some((y, later)) if same_aggregate(x, y) => rest = later,
            _ => return false,
        }
    }
    rest.is_empty()
}

fn same_calls(a: &[WindowCall], b: &[WindowCall]) -> bool
    ensures { IsTrue result ↔ map call_of a.now ≡ map call_of b.now }
{
    let mut rest = b;
    for x in a {
        match rest.split_first() {
            Some((y, later)) if same_call(x, y) => rest = later,
            _ => return false,
        }
    }
    rest.is_empty()
}

fn same_groups(a: &Grouping, b: &Grouping) -> bool
    ensures { IsTrue result ↔ grouping_of a.now ≡ grouping_of b.now }
{
    same_tree_lists(a.by.as_slice(), b.by.as_slice())
        && same_aggregates(a.aggregates.as_slice(), b.aggregates.as_slice())
        && same_tree(&a.having, &b.having)
}

fn same_grouping(a: &Option<Grouping>, b: &Option<Grouping>) -> bool
    ensures { IsTrue result ↔ option_map grouping_of a.now ≡ option_map grouping_of b.now }
{
    match (a, b) {
        (None, None) => true,
        (Some(a), Some(b)) => same_groups(a, b),
        _ => false,
    }
}

/// Whether two SELECTs are the same, but for their FROM.
pub(crate) fn same_select(a: &Select, b: &Select) -> bool
    ensures { IsTrue result ↔ select_of a.now ≡ select_of b.now }
{
    a.distinct == b.distinct
        && same_tree_lists(a.columns.as_slice(), b.columns.as_slice())
        && same_tree(&a.condition, &b.condition)
        && same_grouping(&a.grouping, &b.grouping)
        && same_calls(a.windows.as_slice(), b.windows.as_slice())
}
