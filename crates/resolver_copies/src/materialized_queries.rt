//! Whole queries without subqueries.
ghost use Rattle.std.specs.Prelude.{◌≡◌, ◌<◌, ◌+◌, ◌^◌, IfOk, length};
ghost use Rattle.resolver_copies.specs.materialized_bodies.FlatView.{lists_of};
ghost use Rattle.semantics_rewrites.specs.materialized_queries.Flat.{kept_of};
ghost use Rattle.semantics_rewrites.specs.materialized_queries.FlatWith.{materialized_with, queries_of};
ghost use Rattle.resolver_bodies.specs.NamedView.{query_data};

use crate::materialized_bodies::{last_answers, materialized_body};
use expr::Leaves;
use resolver_bodies::Query;
use resolver_terms::order_with;
use std::alloc::{AllocError, Global};
use values::Value;

/// A copy of a query in which no other queries stand: each source that is no table of the catalog is one from this place on, and these
/// values of each inner query stand in its place. (SELECT; SQL Language Expressions, "The IN and NOT IN Operators", "The EXISTS
/// Operator")
pub fn materialized_query(
    alloc: Global,
    answers: &[Vec<Value>],
    place: usize,
    query: &Query,
) -> Result<Query, AllocError>
    requires places { place + length (kept_of (query_data query.now).body) < 2 ^ 64 }
    requires answered { length answers.now ≡ length (queries_of (query_data query.now).body) }
    ensures { IfOk result (λ copy. query_data copy ≡ materialized_with (lists_of answers.now) place (query_data query.now)) }
{
    let own = last_answers(alloc, &query.body, answers)?;
    let order = order_with(alloc, Leaves::Answered(own), query.order.as_slice())?;
    Ok(Query {
        body: materialized_body(alloc, answers, place, &query.body)?,
        order,
        limit: query.limit,
        offset: query.offset,
    })
}
