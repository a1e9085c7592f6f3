//! What is computed before a query: its sources that are no tables, and its inner queries.
ghost use Rattle.std.specs.Prelude.{◌≡◌, ◌↔◌, ◌++◌, [], IfOk, IsTrue, OnOk, length, map};
ghost use Rattle.resolver_bodies.specs.BodyView.{body_of, inner_of, joined_of, source_of};
ghost use Rattle.resolver_copies.specs.materialized_bodies.FlatView.{kept_among, lists_of, queries_found, sources_in};
ghost use Rattle.semantics_rewrites.specs.materialized_queries.Flat.{kept_of, kept_source};
ghost use Rattle.semantics_rewrites.specs.materialized_queries.FlatWith.{last_answers, queries_of};

use resolver_bodies::{Body, InnerQuery, Joined, Source};
use std::alloc::{AllocError, Global};
use values::Value;

/// Whether a source is a table of the catalog.
pub(crate) fn is_table(source: &Source) -> bool
    ensures { IsTrue result ↔ (kept_source (source_of source.now) ≡ []) }
{
    match source {
        Source::Table(_, _) => true,
        Source::Schema => false,
        Source::Derived(_) => false,
    }
}

fn add_sources<'a>(sources: &'a [Joined], found: &mut Vec<&'a Source>) -> Result<(), AllocError>
    ensures { OnOk result (sources_in found.new ≡ sources_in found.old ++ kept_among (map joined_of sources.now)) }
{
    for joined in sources {
        if !is_table(&joined.source) {
            found.push(&joined.source)?;
        }
    }
    Ok(())
}

fn add_kept<'a>(body: &'a Body, found: &mut Vec<&'a Source>) -> Result<(), AllocError>
    ensures { OnOk result (sources_in found.new ≡ sources_in found.old ++ kept_of (body_of body.now)) }
{
    match body {
        Body::Select(single) => add_sources(single.tables.sources.as_slice(), found),
        Body::Compound(left, _, single) => {
            add_kept(left, found)?;
            add_sources(single.tables.sources.as_slice(), found)
        }
    }
}

/// The sources of a query that are no tables of the catalog, SELECT by SELECT, in the order in which they are written. (SELECT,
/// "Determination of input data")
pub fn kept_sources<'a>(alloc: Global, body: &'a Body) -> Result<Vec<&'a Source>, AllocError>
    ensures { IfOk result (λ found. sources_in found ≡ kept_of (body_of body.now)) }
{
    let mut found = Vec::new(alloc);
    add_kept(body, &mut found)?;
    Ok(found)
}

fn add_inner<'a>(inner: &'a [InnerQuery], found: &mut Vec<&'a InnerQuery>) -> Result<(), AllocError>
    ensures { OnOk result (queries_found found.new ≡ queries_found found.old ++ map inner_of inner.now) }
{
    for query in inner {
        found.push(query)?;
    }
    Ok(())
}

fn add_queries<'a>(body: &'a Body, found: &mut Vec<&'a InnerQuery>) -> Result<(), AllocError>
    ensures { OnOk result (queries_found found.new ≡ queries_found found.old ++ queries_of (body_of body.now)) }
{
    match body {
        Body::Select(single) => add_inner(single.tables.inner.as_slice(), found),
        Body::Compound(left, _, single) => {
            add_queries(left, found)?;
            add_inner(single.tables.inner.as_slice(), found)
        }
    }
}

/// The queries inside the expressions of a query, SELECT by SELECT, in the order in which its terms name their answers. (SQL Language
/// Expressions, "The IN and NOT IN Operators", "The EXISTS Operator")
pub fn inner_queries<'a>(alloc: Global, body: &'a Body) -> Result<Vec<&'a InnerQuery>, AllocError>
    ensures { IfOk result (λ found. queries_found found ≡ queries_of (body_of body.now)) }
{
    let mut found = Vec::new(alloc);
    add_queries(body, &mut found)?;
    Ok(found)
}

/// Of the values of each inner query of a query, those of its one SELECT, or of the last, over which ORDER BY stands. (SELECT, "The
/// ORDER BY clause")
pub fn last_answers<'a>(
    alloc: Global,
    body: &Body,
    answers: &'a [Vec<Value>],
) -> Result<&'a [Vec<Value>], AllocError>
    requires { length answers.now ≡ length (queries_of (body_of body.now)) }
    ensures { IfOk result (λ own. lists_of own.now ≡ last_answers (lists_of answers.now) (body_of body.now)) }
{
    match body {
        Body::Select(_) => Ok(answers),
        Body::Compound(left, _, _) => {
            let before = inner_queries(alloc, left)?;
            let (_, own) = answers.split_at(before.len());
            Ok(own)
        }
    }
}
