//! Copies of sources, and of the queries in them.
ghost use Rattle.std.specs.Prelude.{◌≡◌, IfOk, map};
ghost use Rattle.resolver_bodies.specs.BodyView.{body_of, inner_of, joined_of, single_of, source_of, tables_of};

use crate::{Body, InnerQuery, Joined, Single, Source, Tables};
use expr::copy;
use resolver_terms::copy_select;
use std::alloc::{AllocError, Global};

/// A copy of a source. (SELECT, "Determination of input data")
#[cycle(copies)]
pub fn copy_source(alloc: Global, source: &Source) -> Result<Source, AllocError>
    ensures { IfOk result (λ copy. source_of copy ≡ source_of source.now) }
{
    match source {
        Source::Table(at, width) => Ok(Source::Table(*at, *width)),
        Source::Schema => Ok(Source::Schema),
        Source::Derived(body) => Ok(Source::Derived(boxed_body(alloc, body)?)),
    }
}

#[cycle(copies)]
fn boxed_body(alloc: Global, body: &Body) -> Result<Box<Body>, AllocError>
    ensures { IfOk result (λ copy. body_of copy.value ≡ body_of body.now) }
{
    let body = copy_body(alloc, body)?;
    Ok(Box::new(alloc, body)?)
}

/// A copy of what a query computes. (SELECT)
#[cycle(copies)]
pub fn copy_body(alloc: Global, body: &Body) -> Result<Body, AllocError>
    ensures { IfOk result (λ copy. body_of copy ≡ body_of body.now) }
{
    match body {
        Body::Select(single) => Ok(Body::Select(copy_single(alloc, single)?)),
        Body::Compound(left, operator, single) => {
            let left = boxed_body(alloc, left)?;
            let single = copy_single(alloc, single)?;
            Ok(Body::Compound(left, *operator, single))
        }
    }
}

#[cycle(copies)]
fn copy_single(alloc: Global, single: &Single) -> Result<Single, AllocError>
    ensures { IfOk result (λ copy. single_of copy ≡ single_of single.now) }
{
    Ok(Single {
        tables: copy_tables(alloc, &single.tables)?,
        select: copy_select(alloc, &single.select)?,
    })
}

/// A copy of what a SELECT stands on. (SELECT, "Determination of input data")
#[cycle(copies)]
pub fn copy_tables(alloc: Global, tables: &Tables) -> Result<Tables, AllocError>
    ensures { IfOk result (λ copy. tables_of copy ≡ tables_of tables.now) }
{
    let sources = copy_sources(alloc, tables.sources.as_slice())?;
    let inner = copy_inner(alloc, tables.inner.as_slice())?;
    Ok(Tables { sources, inner })
}

#[cycle(copies)]
fn copy_joined(alloc: Global, joined: &Joined) -> Result<Joined, AllocError>
    ensures { IfOk result (λ copy. joined_of copy ≡ joined_of joined.now) }
{
    Ok(Joined {
        join: joined.join,
        source: copy_source(alloc, &joined.source)?,
        condition: copy(alloc, &joined.condition)?,
    })
}

#[cycle(copies)]
fn copy_sources(alloc: Global, sources: &[Joined]) -> Result<Vec<Joined>, AllocError>
    ensures { IfOk result (λ v. map joined_of v.items ≡ map joined_of sources.now) }
{
    let mut copies = Vec::new(alloc);
    for joined in sources {
        let copy = copy_joined(alloc, joined)?;
        copies.push(copy)?;
    }
    Ok(copies)
}

#[cycle(copies)]
fn copy_query(alloc: Global, query: &InnerQuery) -> Result<InnerQuery, AllocError>
    ensures { IfOk result (λ copy. inner_of copy ≡ inner_of query.now) }
{
    match query {
        InnerQuery::Values(body) => Ok(InnerQuery::Values(boxed_body(alloc, body)?)),
        InnerQuery::Exists(body) => Ok(InnerQuery::Exists(boxed_body(alloc, body)?)),
    }
}

#[cycle(copies)]
fn copy_inner(alloc: Global, queries: &[InnerQuery]) -> Result<Vec<InnerQuery>, AllocError>
    ensures { IfOk result (λ v. map inner_of v.items ≡ map inner_of queries.now) }
{
    let mut copies = Vec::new(alloc);
    for query in queries {
        let copy = copy_query(alloc, query)?;
        copies.push(copy)?;
    }
    Ok(copies)
}
