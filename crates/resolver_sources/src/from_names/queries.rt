//! What resolves the queries that a query holds.
ghost use Rattle.resolver_sources.specs.from_names.Resolved.{QueryNames};
ghost use Rattle.resolver_terms.specs.Outcome.{Gives};
ghost use Rattle.resolver_sources.specs.source_names.GivenView.{queried_of};
ghost use Rattle.sql_reader_grammar.specs.statement_trees.TreeView.{query_of};

use crate::source_names::Queried;
use sql_reader_grammar::Query;
use std::alloc::Global;
use values::Fault;

/// What resolves the names of the queries that stand in a query: in FROM, and in its expressions. (SELECT)
pub trait Queries {
    /// The query that each is, or its first fault.
    ghost meaning: { Self → QueryNames };

    /// It may be asked.
    ghost resolves: { Self → Type 0 };

    /// A query by its names.
    fn query(&self, alloc: Global, query: &Query) -> Result<Queried, Fault>
        requires { resolves self.now }
        ensures { Gives queried_of result (meaning self.now (query_of query.now)) };
}
