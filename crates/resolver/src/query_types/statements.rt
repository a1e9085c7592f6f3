//! A query, with what has to be typed beside it.
ghost use Rattle.std.specs.Prelude.{◌≡◌, map};
ghost use Rattle.resolver_bodies.specs.BodyView.{body_of};
ghost use Rattle.semantics_names.specs.Outcome.{each};
ghost use Rattle.semantics_names.specs.Statement.{Named};
ghost use Rattle.semantics_names.specs.Typed.{with_types};
ghost use Rattle.semantics_names.specs.Types as spec;
ghost use Rattle.resolver_terms.specs.Outcome.{Gives};
ghost use Rattle.resolver_types.specs.term_types.Passed.{passed};
ghost use Rattle.resolver_terms.specs.SelectView.{key_of};

use crate::query_types::queries::query_types;
use resolver_bodies::Body;
use resolver_terms::Key;
use resolver_types::body_types::body_types;
use std::alloc::Global;
use values::{Fault, Ty};

// Whether each of these queries has types. The fault is one of `body_types`.
fn check_bodies(alloc: Global, tables: &[Vec<Ty>], beside: &[Body]) -> Result<(), Fault>
    ensures { Gives (λ done. done) result (passed (each (spec.body_types (map (λ t. t.items) tables.now)) (map body_of beside.now))) }
{
    for body in beside {
        let _types = body_types(alloc, tables, body)?;
    }
    Ok(())
}

/// Whether a statement's query has types, over tables whose columns have these types, where these queries stand beside it, and so has
/// each of them. The fault is one of `query_types`. (SELECT; STRICT Tables)
pub fn check_types(
    alloc: Global,
    tables: &[Vec<Ty>],
    beside: &[Body],
    body: &Body,
    order: &[Key],
) -> Result<(), Fault>
    ensures { (named : Named) → named.beside ≡ map body_of beside.now → named.query.body ≡ body_of body.now
        → named.query.order ≡ map key_of order.now
        → Gives (λ done. named) result (with_types (map (λ t. t.items) tables.now) named) }
{
    check_bodies(alloc, tables, beside)?;
    let _types = query_types(alloc, tables, body, order)?;
    Ok(())
}
