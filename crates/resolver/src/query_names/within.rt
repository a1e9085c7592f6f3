//! What resolves the queries in a query.
ghost use Rattle.resolver.specs.query_names.Nested.{ResolvesWithin, names_within};

use resolver_sources::{Known, Queried, Queries};
use sql_reader_grammar::Query;
use std::alloc::Global;
use values::Fault;

/// What resolves queries by `resolve`. What FROM may mention in them, and how many of them may stand in one another, say what
/// they are.
#[derive(Drop)]
pub(crate) struct Within<'a, F> {
    pub(crate) known: &'a [Known],
    pub(crate) depth: usize,
    pub(crate) resolve: F,
}

impl<F: Fn(&Query) -> Result<Queried, Fault>> Queries for Within<'_, F> {
    ghost meaning = { λ w. names_within w.known.now w.depth };

    ghost resolves = { λ w. F.IsAlwaysCallable w.resolve × ResolvesWithin w.known.now w.depth (λ query r. F.post w.resolve query r) };

    fn query(&self, _alloc: Global, query: &Query) -> Result<Queried, Fault> {
        (self.resolve)(query)
    }
}
