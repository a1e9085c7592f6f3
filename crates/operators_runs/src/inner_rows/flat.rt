//! What a query computes, alone and without subqueries.
ghost use Rattle.std.specs.Prelude.{◌≡◌, ◌<◌, ◌+◌, ◌^◌, IfOk, length};
ghost use Rattle.resolver_bodies.specs.BodyView.{body_of};
ghost use Rattle.resolver_copies.specs.materialized_bodies.FlatView.{lists_of};
ghost use Rattle.semantics_rewrites.specs.materialized_queries.Flat.{kept_of};
ghost use Rattle.semantics_rewrites.specs.materialized_queries.FlatWith.{materialized_with, queries_of};
ghost use Rattle.semantics_rewrites.specs.materialized_queries.Parts.{plain};
ghost use Rattle.resolver_bodies.specs.NamedView.{query_data};

use resolver_bodies::{Body, Query};
use resolver_copies::materialized_body;
use std::alloc::{AllocError, Global};
use values::Value;

/// A copy of what a query computes, in no order, in which each source that is no table is one from this place on, and these values of
/// each query inside an expression stand in its place. (SELECT)
pub(crate) fn materialized_plain(
    alloc: Global,
    answers: &[Vec<Value>],
    place: usize,
    body: &Body,
) -> Result<Query, AllocError>
    requires places { place + length (kept_of (body_of body.now)) < 2 ^ 64 }
    requires answered { length answers.now ≡ length (queries_of (body_of body.now)) }
    ensures { IfOk result (λ flat. query_data flat ≡ materialized_with (lists_of answers.now) place (plain (body_of body.now))) }
{
    let body = materialized_body(alloc, answers, place, body)?;
    Ok(Query {
        body,
        order: Vec::new(alloc),
        limit: None,
        offset: 0,
    })
}
