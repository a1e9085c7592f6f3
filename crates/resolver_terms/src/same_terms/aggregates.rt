//! Whether two aggregates are the same.
ghost use Rattle.std.specs.Prelude.{◌≡◌, ◌↔◌, IsTrue};
ghost use Rattle.resolver_terms.specs.SelectView.{aggregate_of};

use crate::Aggregate;
use expr_types::same_tree;

/// Whether two aggregates are the same function of the same term.
pub fn same_aggregate(a: &Aggregate, b: &Aggregate) -> bool
    ensures { IsTrue result ↔ aggregate_of a.now ≡ aggregate_of b.now }
{
    a.function == b.function && same_tree(&a.argument, &b.argument)
}
