//! Whether two queries are the same.
ghost use Rattle.std.specs.Prelude.{◌≡◌, ◌↔◌, IsTrue, map};
ghost use Rattle.resolver_bodies.specs.BodyView.{body_of, inner_of, joined_of, single_of, source_of, tables_of};
ghost use Rattle.semantics_names.specs.Sources.{kind_of};
ghost use Rattle.semantics_names.specs.Statement.{operator_of};

use crate::same_bodies::selects::same_select;
use crate::{Body, InnerQuery, Joined, Single, Source, Tables};
use expr_types::same_tree;
use sql_reader_syntax::{CompoundOperator, Join};

fn same_join(a: Join, b: Join) -> bool
    ensures { IsTrue result ↔ kind_of a ≡ kind_of b }
{
    a == b
}

fn same_operator(a: CompoundOperator, b: CompoundOperator) -> bool
    ensures { IsTrue result ↔ operator_of a ≡ operator_of b }
{
    a == b
}

#[cycle(sameness)]
fn same_source(a: &Source, b: &Source) -> bool
    ensures { IsTrue result ↔ source_of a.now ≡ source_of b.now }
{
    match a {
        Source::Table(i, m) => match b {
            Source::Table(j, n) => i == j && m == n,
            Source::Schema | Source::Derived(_) => false,
        },
        Source::Schema => matches!(b, Source::Schema),
        Source::Derived(x) => matches!(b, Source::Derived(y) if same_body(x, y)),
    }
}

#[cycle(sameness)]
fn same_joined(a: &Joined, b: &Joined) -> bool
    ensures { IsTrue result ↔ joined_of a.now ≡ joined_of b.now }
{
    same_join(a.join, b.join)
        && same_source(&a.source, &b.source)
        && same_tree(&a.condition, &b.condition)
}

#[cycle(sameness)]
fn same_sources(a: &[Joined], b: &[Joined]) -> bool
    ensures { IsTrue result ↔ map joined_of a.now ≡ map joined_of b.now }
{
    let mut rest = b;
    for x in a {
        match rest.split_first() {
            Some((y, later)) if same_joined(x, y) => rest = later,
            _ => return false,
        }
    }
    rest.is_empty()
}

#[cycle(sameness)]
fn same_queries(a: &[InnerQuery], b: &[InnerQuery]) -> bool
    ensures { IsTrue result ↔ map inner_of a.now ≡ map inner_of b.now }
{
    let mut rest = b;
    for x in a {
        match rest.split_first() {
            Some((y, later)) if same_query(x, y) => rest = later,
            _ => return false,
        }
    }
    rest.is_empty()
}

#[cycle(sameness)]
fn same_tables(a: &Tables, b: &Tables) -> bool
    ensures { IsTrue result ↔ tables_of a.now ≡ tables_of b.now }
{
    same_sources(a.sources.as_slice(), b.sources.as_slice())
        && same_queries(a.inner.as_slice(), b.inner.as_slice())
}

#[cycle(sameness)]
fn same_single(a: &Single, b: &Single) -> bool
    ensures { IsTrue result ↔ single_of a.now ≡ single_of b.now }
{
    same_select(&a.select, &b.select) && same_tables(&a.tables, &b.tables)
}

#[cycle(sameness)]
fn same_body(a: &Body, b: &Body) -> bool
    ensures { IsTrue result ↔ body_of a.now ≡ body_of b.now }
{
    match a {
        Body::Select(x) => matches!(b, Body::Select(y) if same_single(x, y)),
        Body::Compound(left, operator, x) => {
            matches!(b, Body::Compound(other, op, y) if same_operator(*operator, *op) && same_single(x, y) && same_body(left, other))
        }
    }
}

/// Whether two queries inside expressions are the same: both give their values, or both say whether they have a row.
#[cycle(sameness)]
pub fn same_query(a: &InnerQuery, b: &InnerQuery) -> bool
    ensures { IsTrue result ↔ inner_of a.now ≡ inner_of b.now }
{
    match a {
        InnerQuery::Values(x) => matches!(b, InnerQuery::Values(y) if same_body(x, y)),
        InnerQuery::Exists(x) => matches!(b, InnerQuery::Exists(y) if same_body(x, y)),
    }
}
