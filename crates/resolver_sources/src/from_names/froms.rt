//! FROM.
ghost use Rattle.std.specs.Prelude.{Ok, map, option_map};
ghost use Rattle.resolver_sources.specs.from_names.Resolved.{joined_to};
ghost use Rattle.resolver_sources.specs.from_names.Steps.{stepped};
ghost use Rattle.semantics_names.specs.Statement as spec;
ghost use Rattle.resolver_terms.specs.Outcome.{Gives};
ghost use Rattle.resolver_sources.specs.source_names.GivenView.{given_of, known_of, sources_of};
ghost use Rattle.sql_reader_grammar.specs.statement_trees.TreeView as trees;

use crate::from_names::queries::Queries;
use crate::source_names::{Given, Known, Sources, derived, first, join, named};
use resolver_exprs::{InnerQueries, Scope};
use sql_reader_grammar as written;
use sql_reader_grammar::{Joined, Source};
use std::alloc::Global;
use values::Fault;

// One source. The fault is one of `named`, or of the query that it is.
fn source<Q: Queries>(
    alloc: Global,
    queries: &Q,
    known: &[Known],
    source: &Source,
) -> Result<Given, Fault>
    requires { Q.resolves queries.now }
    ensures { Gives given_of result (spec.source_of (map known_of known.now) (Q.meaning queries.now) (trees.source_of source.now)) }
{
    match source {
        Source::Table(name, alias) => named(alloc, known, name.as_str(), alias),
        Source::Derived(query, alias) => {
            let query = queries.query(alloc, query)?;
            Ok(derived(alloc, query, alias)?)
        }
    }
}

// One source more. The fault is one of `source` and of `join`.
fn joined<I: InnerQueries, Q: Queries>(
    alloc: Global,
    inner: &I,
    queries: &Q,
    known: &[Known],
    left: Sources,
    next: &Joined,
) -> Result<Sources, Fault>
    requires { Q.resolves queries.now }
    ensures { Gives sources_of result
        (joined_to (I.answers inner.now) (map known_of known.now) (Q.meaning queries.now) (sources_of left) (trees.joined_of next.now)) }
{
    let given = source(alloc, queries, known, &next.source)?;
    join(alloc, inner, left, next.join, &next.condition, given)
}

// These sources more. The fault is one of `joined`.
fn all_joined<I: InnerQueries, Q: Queries>(
    alloc: Global,
    inner: &I,
    queries: &Q,
    known: &[Known],
    left: Sources,
    others: &[Joined],
) -> Result<Sources, Fault>
    requires { Q.resolves queries.now }
    ensures { Gives sources_of result
        (stepped (joined_to (I.answers inner.now) (map known_of known.now) (Q.meaning queries.now)) (Ok (sources_of left))
        (map trees.joined_of others.now)) }
{
    let mut all = left;
    for next in others {
        all = joined(alloc, inner, queries, known, all, next)?;
    }
    Ok(all)
}

// FROM where one is written. The fault is one of `source` and of `join`.
fn sources<I: InnerQueries, Q: Queries>(
    alloc: Global,
    inner: &I,
    queries: &Q,
    known: &[Known],
    from: &written::Sources,
) -> Result<Sources, Fault>
    requires { Q.resolves queries.now }
    ensures { Gives sources_of result
        (spec.from_of (map known_of known.now) (Q.meaning queries.now) (I.answers inner.now) (trees.sources_of from.now)) }
{
    let given = source(alloc, queries, known, &from.first)?;
    let left = first(alloc, inner, given)?;
    all_joined(alloc, inner, queries, known, left, from.others.as_slice())
}

/// The sources of FROM, or none where no FROM is written. The fault is `UnknownTable` where no table and no item of WITH has a name;
/// `Limit` of an item of WITH of more sources than a query may have; `DuplicateName` where two sources are called the same; one of
/// `term`, of what stands behind ON; of USING `UnknownColumn` where a side has no column of a name, `Ambiguous` where it has two; one
/// of a query in it; or `NoMemory`. (SELECT, "Determination of input data")
pub fn from<I: InnerQueries, Q: Queries>(
    alloc: Global,
    inner: &I,
    queries: &Q,
    known: &[Known],
    from: &Option<written::Sources>,
) -> Result<Sources, Fault>
    requires { Q.resolves queries.now }
    ensures { Gives sources_of result
        (spec.from_of (map known_of known.now) (Q.meaning queries.now) (I.answers inner.now)
        (trees.maybe_from (option_map trees.sources_of from.now))) }
{
    match from {
        None => Ok(Sources {
            joined: Vec::new(alloc),
            names: Vec::new(alloc),
            scope: Scope::new(Vec::new(alloc)),
            beside: Vec::new(alloc),
        }),
        Some(from) => sources(alloc, inner, queries, known, from),
    }
}
