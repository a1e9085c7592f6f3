//! The cycle that resolves a query with the queries in it.
ghost use Rattle.std.specs.Prelude.{map};
ghost use Rattle.sql_reader_grammar.specs.Reading.{terms_of};
ghost use Rattle.semantics_names.specs.Statement as spec;
ghost use Rattle.resolver.specs.query_names.Nested.{names_within};
ghost use Rattle.resolver_terms.specs.Outcome.{Gives};
ghost use Rattle.resolver_sources.specs.source_names.GivenView.{known_of, queried_of};
ghost use Rattle.sql_reader_grammar.specs.statement_trees.TreeView.{query_of, term_of};

use crate::query_names::compounds::query;
use crate::query_names::within::Within;
use resolver_sources::{Known, Queried};
use sql_reader_grammar::{OrderingTerm, Query};
use std::alloc::Global;
use values::Fault;

/// The most SELECTs that may stand in one another.
pub const MAX_LEVELS: usize = 100;

/// A query by its names, with its ORDER BY, where FROM may mention these tables and items of WITH, and at most so many queries may
/// stand in one another. The fault is `Limit` where more do; one of its names, or of a query in it; `ColumnCount` where SELECTs that
/// are joined have not as many columns, or the query of an IN has not one; `WrongPlace` where ORDER BY behind such SELECTs is an
/// expression; or `NoMemory`. (SELECT)
#[tactic(auto, using(crate::proofs::lemmas::query_names::DepthLemmas::none_deep))]
pub fn query_within(
    alloc: Global,
    known: &[Known],
    depth: usize,
    whole: &Query,
    order: &[OrderingTerm],
) -> Result<Queried, Fault>
    ensures { Gives queried_of result
        (spec.queried depth (map known_of known.now) (query_of whole.now) (terms_of (map term_of order.now))) }
{
    if depth == 0 {
        return Err(Fault::Limit);
    }
    let below = depth - 1;
    let resolve = |inside: &Query|
        ensures { Gives queried_of result (names_within known.entry.now below (query_of inside.now)) }
    { query_within(alloc, known, below, inside, &[]) };
    let within = Within {
        known,
        depth: below,
        resolve,
    };
    query(alloc, &within, known, whole, order)
}
