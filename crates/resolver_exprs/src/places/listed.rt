//! The position of a term or an aggregate in a list of them.
ghost use Rattle.std.specs.Prelude.{◌≡◌, ◌<◌, ⊤, length, map, MatchOption};
ghost use Rattle.semantics_names.specs.Places.{place_of};
ghost use Rattle.semantics_names.specs.Same.{is_same_aggregate, is_same_term};
ghost use Rattle.resolver_terms.specs.SelectView.{aggregate_of};
ghost use Rattle.expr.specs.View.{term};

use expr::Expr;
use expr_types::same_tree;
use resolver_terms::{Aggregate, same_aggregate};
use semantics_names::laws::same_is_equal;

/// The place of the first of these expressions that is the same term.
pub fn term_place(terms: &[Expr], t: &Expr) -> Option<usize>
    ensures place { result ≡ place_of is_same_term (term t.now) (map term terms.now) }
    ensures within { MatchOption result ⊤ (λ at. at < length terms.now) }
{
    same_is_equal();
    for (at, other) in terms.iter().enumerate() {
        if same_tree(t, other) {
            return Some(at);
        }
    }
    None
}

/// The place of the first of these aggregates that is the same.
pub fn aggregate_place(aggregates: &[Aggregate], a: &Aggregate) -> Option<usize>
    ensures place { result ≡ place_of is_same_aggregate (aggregate_of a.now) (map aggregate_of aggregates.now) }
    ensures within { MatchOption result ⊤ (λ at. at < length aggregates.now) }
{
    same_is_equal();
    for (at, other) in aggregates.iter().enumerate() {
        if same_aggregate(a, other) {
            return Some(at);
        }
    }
    None
}
