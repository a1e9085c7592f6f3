//! Copies of queries without subqueries.
ghost use Rattle.std.specs.Prelude.{◌≡◌, ◌<◌, ◌+◌, ◌^◌, IfOk, length, map};
ghost use Rattle.resolver_bodies.specs.BodyView.{body_of, joined_of, single_of, source_of, tables_of};
ghost use Rattle.expr.specs.Filled.{filled};
ghost use Rattle.resolver_copies.specs.materialized_bodies.FlatView.{all_flat, materialized_one, kept_among, lists_of};
ghost use Rattle.semantics_rewrites.specs.materialized_queries.Flat.{materialized_from, materialized_source, kept_in, kept_of, kept_source};
ghost use Rattle.semantics_rewrites.specs.materialized_queries.FlatWith.{materialized_body_with, queries_of};
ghost use Rattle.semantics.specs.Query.{body_width};

use crate::materialized_bodies::parts::{inner_queries, is_table, kept_sources};
use expr::Leaves;
use resolver_bodies::{Body, Joined, Single, Source, Tables};
use resolver_terms::select_with;
use std::alloc::{AllocError, Global};
use values::Value;

/// How many columns the schema's table has. (The Schema Table)
const SCHEMA_WIDTH: usize = 5;

// How many values a row of the query has.
fn width_of(body: &Body) -> usize
    ensures { result ≡ body_width (body_of body.now) }
{
    match body {
        Body::Select(single) => single.select.columns.len(),
        Body::Compound(left, _, _) => width_of(left),
    }
}

// A source as a table, at this place if it is none.
fn materialized_source(place: usize, source: &Source) -> Source
    ensures { source_of result ≡ materialized_source place (source_of source.now) }
{
    match source {
        Source::Table(at, width) => Source::Table(*at, *width),
        Source::Schema => Source::Table(place, SCHEMA_WIDTH),
        Source::Derived(body) => Source::Table(place, width_of(body)),
    }
}

// The place behind that of a source, where it is no table.
fn place_behind(place: usize, source: &Source) -> usize
    requires { place + length (kept_source (source_of source.now)) < 2 ^ 64 }
    ensures { result ≡ place + length (kept_source (source_of source.now)) }
{
    if is_table(source) { place } else { place + 1 }
}

fn materialized_sources(
    alloc: Global,
    answers: &[Vec<Value>],
    first: usize,
    sources: &[Joined],
) -> Result<Vec<Joined>, AllocError>
    requires { first + length (kept_among (map joined_of sources.now)) < 2 ^ 64 }
    ensures { IfOk result (λ v. map joined_of v.items ≡ all_flat (filled (lists_of answers.now)) first (map joined_of sources.now)) }
{
    let mut place = first;
    let mut copies = Vec::new(alloc);
    for joined in sources {
        copies.push(Joined {
            join: joined.join,
            source: materialized_source(place, &joined.source),
            condition: Leaves::Answered(answers).copy(alloc, &joined.condition)?,
        })?;
        place = place_behind(place, &joined.source);
    }
    Ok(copies)
}

fn materialized_tables(
    alloc: Global,
    answers: &[Vec<Value>],
    place: usize,
    tables: &Tables,
) -> Result<Tables, AllocError>
    requires { place + length (kept_in (tables_of tables.now)) < 2 ^ 64 }
    ensures { IfOk result (λ copy. tables_of copy ≡ materialized_from (filled (lists_of answers.now)) place (tables_of tables.now)) }
{
    Ok(Tables {
        sources: materialized_sources(alloc, answers, place, tables.sources.as_slice())?,
        inner: Vec::new(alloc),
    })
}

fn materialized_single(
    alloc: Global,
    answers: &[Vec<Value>],
    place: usize,
    single: &Single,
) -> Result<Single, AllocError>
    requires { place + length (kept_in (single_of single.now).from) < 2 ^ 64 }
    ensures { IfOk result (λ copy. single_of copy ≡ materialized_one (filled (lists_of answers.now)) place (single_of single.now)) }
{
    Ok(Single {
        tables: materialized_tables(alloc, answers, place, &single.tables)?,
        select: select_with(alloc, Leaves::Answered(answers), &single.select)?,
    })
}

/// A copy of a query in which no other queries stand: each source that is no table of the catalog is one from this place on, and these
/// values of each inner query stand in its place. (SELECT; SQL Language Expressions, "The IN and NOT IN Operators", "The EXISTS
/// Operator")
pub fn materialized_body(
    alloc: Global,
    answers: &[Vec<Value>],
    place: usize,
    body: &Body,
) -> Result<Body, AllocError>
    requires places { place + length (kept_of (body_of body.now)) < 2 ^ 64 }
    requires answered { length answers.now ≡ length (queries_of (body_of body.now)) }
    ensures { IfOk result (λ copy. body_of copy ≡ materialized_body_with (lists_of answers.now) place (body_of body.now)) }
{
    match body {
        Body::Select(single) => Ok(Body::Select(materialized_single(
            alloc, answers, place, single,
        )?)),
        Body::Compound(left, operator, single) => {
            let (before, own) = answers.split_at(inner_queries(alloc, left)?.len());
            let behind = place + kept_sources(alloc, left)?.len();
            let left = materialized_body(alloc, before, place, left)?;
            let single = materialized_single(alloc, own, behind, single)?;
            Ok(Body::Compound(Box::new(alloc, left)?, *operator, single))
        }
    }
}
