//! One SELECT with its FROM.
ghost use Rattle.std.specs.Prelude.{◌≡◌, IfOk, map};
ghost use Rattle.resolver_bodies.specs.BodyView.{body_of, inner_of};
ghost use Rattle.sql_reader_grammar.specs.Reading.{terms_of};
ghost use Rattle.resolver_sources.specs.inner_names.InnerNames.{AreNamed};
ghost use Rattle.resolver_sources.specs.inner_names.InnerView.{asked_of};
ghost use Rattle.semantics_names.specs.Statement as spec;
ghost use Rattle.resolver_sources.specs.single_names.SingleView.{single_data};
ghost use Rattle.resolver_sources.specs.single_names.Singles.{behind_inner, single_over};
ghost use Rattle.resolver_terms.specs.Outcome.{Gives};
ghost use Rattle.resolver_selects.specs.NamedView.{core_data};
ghost use Rattle.resolver_sources.specs.source_names.GivenView.{known_of, sources_of};
ghost use Rattle.sql_reader_grammar.specs.statement_trees.TreeView.{core_of, term_of};

use crate::from_names::{Queries, from};
use crate::inner_names::{Asked, Inners, asked_queries, inner_queries, split};
use crate::single_names::windows::with_windows;
use crate::source_names::{Known, Sources};
use resolver_bodies::{Body, InnerQuery, Tables};
use resolver_selects::{NamedSelect, select};
use sql_reader_grammar::{OrderingTerm, SelectCore};
use std::alloc::{AllocError, Global};
use values::Fault;

/// A SELECT with its FROM, by its names. (SELECT, "Simple Select Processing")
#[derive(Drop)]
pub struct NamedSingle {
    pub tables: Tables,
    pub named: NamedSelect,
    /// What else is written in it and has to be typed by itself.
    pub beside: Vec<Body>,
}

// A SELECT over these sources and inner queries, and beside it what has to be typed by itself.
fn over(
    alloc: Global,
    inner: Vec<InnerQuery>,
    written: Vec<Body>,
    sources: Sources,
    named: NamedSelect,
) -> Result<NamedSingle, AllocError>
    ensures { IfOk result (λ s. single_data s
        ≡ single_over (map inner_of inner.items) (map body_of written.items) (sources_of sources) (core_data named)) }
{
    let Sources {
        joined,
        names: _,
        scope: _,
        beside: mut in_sources,
    } = sources;
    let tables = Tables {
        sources: joined,
        inner,
    };
    let windows = with_windows(alloc, &tables, &named.select, named.defined.as_slice())?;
    let mut beside = written;
    beside.append(&mut in_sources)?;
    beside.push(Body::Select(windows))?;
    Ok(NamedSingle {
        tables,
        named,
        beside,
    })
}

// A SELECT, where these are the queries in its expressions. The fault is one of `from` and of `select`.
fn behind_inner<Q: Queries>(
    alloc: Global,
    queries: &Q,
    known: &[Known],
    core: &SelectCore,
    order: &[OrderingTerm],
    asked: &[Asked<'_>],
    inner: Vec<InnerQuery>,
    written: Vec<Body>,
) -> Result<NamedSingle, Fault>
    requires resolved { Q.resolves queries.now }
    requires named { AreNamed (Q.meaning queries.now) (map asked_of asked.now) (map inner_of inner.items) }
    ensures { Gives single_data result
        (behind_inner (map known_of known.now) (Q.meaning queries.now) (core_of core.now) (terms_of (map term_of order.now))
        (map inner_of inner.items) (map body_of written.items)) }
{
    let inners = Inners::new(queries, asked, inner.as_slice());
    let sources = from(alloc, &inners, queries, known, &core.sources)?;
    let named = select(alloc, &inners, &sources.scope, core, order)?;
    Ok(over(alloc, inner, written, sources, named)?)
}

/// One SELECT with its FROM. The fault is one of `inner_queries`, of `from` and of `select`. (SELECT, "Simple Select Processing")
pub fn single<Q: Queries>(
    alloc: Global,
    queries: &Q,
    known: &[Known],
    core: &SelectCore,
    order: &[OrderingTerm],
) -> Result<NamedSingle, Fault>
    requires { Q.resolves queries.now }
    ensures { Gives single_data result
        (spec.single_of (map known_of known.now) (Q.meaning queries.now) (core_of core.now) (terms_of (map term_of order.now))) }
{
    let asked = asked_queries(alloc, core, order)?;
    let inner = inner_queries(alloc, queries, asked.as_slice())?;
    let (inner, written) = split(alloc, inner)?;
    behind_inner(
        alloc,
        queries,
        known,
        core,
        order,
        asked.as_slice(),
        inner,
        written,
    )
}
