//! The answers of the queries inside the expressions of a SELECT, by their positions.
ghost use Rattle.std.specs.Prelude.{◌≡◌, ◌<◌, Some, length, map, slice_get};
ghost use Rattle.resolver_bodies.specs.BodyView.{inner_of};
ghost use Rattle.resolver_sources.specs.inner_names.InnerNames.{AreNamed, answers_by};
ghost use Rattle.resolver_sources.specs.inner_names.InnerView.{asked_of};
ghost use Rattle.semantics.specs.Query as meaning;
ghost use Rattle.semantics_names.specs.Places.{place_of};
ghost use Rattle.semantics_names.specs.Same.{is_same_inner};
ghost use Rattle.semantics_names.specs.Statement.{answer_at};
ghost use Rattle.resolver_terms.specs.Outcome.{Gives};

use crate::from_names::Queries;
use crate::inner_names::resolved::resolved;
use crate::inner_names::written::{Asked, place_of_alike};
use resolver_bodies::{InnerQuery, same_query};
use resolver_exprs::InnerQueries;
use semantics_names::laws::same_is_equal;
use sql_reader_grammar::Query;
use std::alloc::Global;
use std::marker::Model;
use values::Fault;

// The place of the first of these queries that is the same.
fn query_place(queries: &[InnerQuery], query: &InnerQuery) -> Option<usize>
    ensures { result ≡ place_of is_same_inner (inner_of query.now) (map inner_of queries.now) }
{
    same_is_equal();
    for (at, other) in queries.iter().enumerate() {
        if same_query(query, other) {
            return Some(at);
        }
    }
    None
}

// The place of the first of these queries that is the same as the one at a place of them.
fn place_of_same(queries: &[InnerQuery], at: usize) -> Option<usize>
    requires { at < length queries.now }
    ensures { (query : meaning.InnerQuery) → slice_get (map inner_of queries.now) at ≡ Some query
        → result ≡ place_of is_same_inner query (map inner_of queries.now) }
{
    query_place(queries, &queries[at])
}

/// The queries inside the expressions of a SELECT, each of which is told by the place of the first that is the same. One that is
/// written like one of these isn't resolved again. (SQL Language Expressions, "The IN and NOT IN Operators", "The EXISTS Operator")
#[derive(Drop)]
pub struct Inners<'a, Q: Queries> {
    queries: &'a Q,
    /// These as they are written, and by their names.
    asked: &'a [Asked<'a>],
    inner: &'a [InnerQuery],
}

impl<'a, Q: Queries> Model for Inners<'a, Q> {
    ghost use Rattle.std.specs.Prelude.{List, map};
    ghost use Rattle.std.specs.Coded.{codes};
    ghost use Rattle.resolver_bodies.specs.BodyView.{inner_of};
    ghost use Rattle.resolver_bodies.specs.contracts.bodies.InnerQuery as e;
    ghost use Rattle.resolver_bodies.specs.declared.bodies.InnerQuery.{InnerQuery};
    ghost use Rattle.resolver_sources.specs.inner_names.InnerNames.{AreNamed};
    ghost use Rattle.resolver_sources.specs.inner_names.InnerView.{asked_of};

    ghost Value = { Q × List InnerQuery };

    ghost coded = { Prim.hlevel (codes, e.the_row.coded) };

    ghost view = { λ i. (i.queries.now, i.inner.now) };

    ghost invariant = { λ i. Q.resolves i.queries.now × AreNamed (Q.meaning i.queries.now) (map asked_of i.asked.now) (map inner_of i.inner.now) };
}

impl<'a, Q: Queries> Inners<'a, Q> {
    /// These, as they are written and by their names, in their order, which `queries` resolves.
    pub fn new(queries: &'a Q, asked: &'a [Asked<'a>], inner: &'a [InnerQuery]) -> Self
        requires resolved { Q.resolves queries.now }
        requires named { AreNamed (Q.meaning queries.now) (map asked_of asked.now) (map inner_of inner.now) }
        ensures { result ≡ (queries.now, inner.now) }
    {
        Inners {
            queries,
            asked,
            inner,
        }
    }

    // The place of a query. The fault is one of `resolved`.
    fn place(&self, alloc: Global, asked: Asked<'_>) -> Result<Option<usize>, Fault>
        ensures { Gives answer_at result (answers_by (Q.meaning self.now.0) (map inner_of self.now.1) (asked_of asked.entry)) }
    {
        if let Some(at) = place_of_alike(self.asked, asked) {
            return Ok(place_of_same(self.inner, at));
        }
        let found = resolved(alloc, self.queries, asked)?;
        Ok(query_place(self.inner, &found.query))
    }
}

impl<'a, Q: Queries> InnerQueries for Inners<'a, Q> {
    ghost answers = { λ i. answers_by (Q.meaning i.0) (map inner_of i.1) };

    fn values(&self, alloc: Global, query: &Query) -> Result<Option<usize>, Fault> {
        self.place(alloc, Asked::Values(query))
    }

    fn exists(&self, alloc: Global, query: &Query) -> Result<Option<usize>, Fault> {
        self.place(alloc, Asked::Exists(query))
    }
}
