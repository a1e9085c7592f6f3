//! How many sources a query has.
ghost use Rattle.std.specs.Prelude.{◌≡◌, map, nat_le, sum_by};
ghost use Rattle.resolver_bodies.specs.BodyView.{body_of, inner_of, joined_of, source_of, tables_of};
ghost use Rattle.values.specs.Bounds.{counted};
ghost use Rattle.semantics_names.specs.Statement as spec;

use resolver_bodies::{Body, InnerQuery, Joined, Source, Tables};

/// The most sources that a query may have.
pub(crate) const MAX_SOURCES: usize = 64;

#[cycle(counting)]
fn source_count(source: &Source) -> usize
    ensures { result ≡ counted (spec.sources_of (source_of source.now)) }
{
    match source {
        Source::Table(_, _) | Source::Schema => 1,
        Source::Derived(body) => body_count(body).saturating_add(1),
    }
}

// Those of sources that are joined.
#[cycle(counting)]
fn joined_count(sources: &[Joined]) -> usize
    ensures { result ≡ counted (sum_by (λ j. spec.sources_of j.source) (map joined_of sources.now)) }
{
    let mut count = 0usize;
    for joined in sources {
        count = count.saturating_add(source_count(&joined.source));
    }
    count
}

#[cycle(counting)]
fn query_count(query: &InnerQuery) -> usize
    ensures { result ≡ counted (spec.sources_of_inner (inner_of query.now)) }
{
    match query {
        InnerQuery::Values(body) | InnerQuery::Exists(body) => body_count(body),
    }
}

// Those of queries inside expressions.
#[cycle(counting)]
fn inner_count(queries: &[InnerQuery]) -> usize
    ensures { result ≡ counted (sum_by spec.sources_of_inner (map inner_of queries.now)) }
{
    let mut count = 0usize;
    for query in queries {
        count = count.saturating_add(query_count(query));
    }
    count
}

#[cycle(counting)]
fn tables_count(tables: &Tables) -> usize
    ensures { result ≡ counted (spec.sources_of_from (tables_of tables.now)) }
{
    let sources = joined_count(tables.sources.as_slice());
    let inner = inner_count(tables.inner.as_slice());
    sources.saturating_add(inner)
}

// Those of a query and of the queries in it, at any depth, or the most that 64 bits hold where there are more.
#[cycle(counting)]
fn body_count(body: &Body) -> usize
    ensures { result ≡ counted (spec.sources_of_body (body_of body.now)) }
{
    match body {
        Body::Select(single) => tables_count(&single.tables),
        Body::Compound(left, _, single) => {
            let count = body_count(left);
            count.saturating_add(tables_count(&single.tables))
        }
    }
}

/// Whether a query has no more sources than it may have, those of the queries in it counted. (Limits In SQLite, "Maximum Number Of
/// Tables In A Join")
pub(crate) fn is_within(body: &Body) -> bool
    ensures { result ≡ nat_le (spec.sources_of_body (body_of body.now)) spec.max_sources }
{
    body_count(body) <= MAX_SOURCES
}
