//! The schema table replaced in the sources of a query, of the queries in it, and of those inside its
//! expressions.
ghost use Rattle.std.specs.Prelude.{◌≡◌, map};
ghost use Rattle.resolver_bodies.specs.BodyView.{body_of, inner_of, joined_of, single_of, source_of, tables_of};
ghost use Rattle.resolver_copies.specs.schema_bodies.SettledView.{with_schema_joined, with_schema_single};
ghost use Rattle.semantics_rewrites.specs.schema_sources.Settled.{with_schema_body, with_schema_from, with_schema_inner, with_schema_source};

use resolver_bodies::{Body, InnerQuery, Joined, Single, Source, Tables};

/// How many columns the schema's table has. (The Schema Table)
const SCHEMA_WIDTH: usize = 5;

#[cycle(settling)]
fn settle_source(place: usize, source: &mut Source)
    ensures { source_of source.new ≡ with_schema_source place (source_of source.old) }
{
    match source {
        Source::Table(_, _) => {}
        Source::Schema => *source = Source::Table(place, SCHEMA_WIDTH),
        Source::Derived(body) => settle_body(place, body),
    }
}

#[cycle(settling)]
fn settle_sources(place: usize, sources: &mut Vec<Joined>)
    ensures { map joined_of sources.new.items ≡ map (with_schema_joined place) (map joined_of sources.old.items) }
{
    for at in 0..sources.len() {
        settle_source(place, &mut sources[at].source);
    }
}

#[cycle(settling)]
fn settle_query(place: usize, query: &mut InnerQuery)
    ensures { inner_of query.new ≡ with_schema_inner place (inner_of query.old) }
{
    match query {
        InnerQuery::Values(body) => settle_body(place, body),
        InnerQuery::Exists(body) => settle_body(place, body),
    }
}

#[cycle(settling)]
fn settle_inner(place: usize, queries: &mut Vec<InnerQuery>)
    ensures { map inner_of queries.new.items ≡ map (with_schema_inner place) (map inner_of queries.old.items) }
{
    for at in 0..queries.len() {
        settle_query(place, &mut queries[at]);
    }
}

#[cycle(settling)]
fn settle_tables(place: usize, tables: &mut Tables)
    ensures { tables_of tables.new ≡ with_schema_from place (tables_of tables.old) }
{
    settle_sources(place, &mut tables.sources);
    settle_inner(place, &mut tables.inner);
}

#[cycle(settling)]
fn settle_single(place: usize, single: &mut Single)
    ensures { single_of single.new ≡ with_schema_single place (single_of single.old) }
{
    settle_tables(place, &mut single.tables);
}

/// Puts the table at this place wherever the schema's table is named. (The Schema Table)
#[cycle(settling)]
pub fn settle_body(place: usize, body: &mut Body)
    ensures { body_of body.new ≡ with_schema_body place (body_of body.old) }
{
    match body {
        Body::Select(single) => settle_single(place, single),
        Body::Compound(left, _, single) => {
            settle_body(place, left);
            settle_single(place, single);
        }
    }
}
