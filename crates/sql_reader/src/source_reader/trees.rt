//! The trees of sources, and of how they are joined.
ghost use Rattle.sql_reader_grammar.specs.statement_trees.TreeView.{expr_of, joined_all, joined_of, on_of, query_of, source_of, sources_of};
ghost use Rattle.std.specs.Prelude.{◌≡◌, map, option_map, string_bytes, IfOk};
ghost use Rattle.sql_reader_exprs.specs.clause_reader.Seen.{bytes_of, names_of};
ghost use Rattle.sql_reader_syntax.specs.ExprTree.{FromTree, OnTree, SourceTree};

use sql_reader_grammar::{Expr, JoinCondition, Joined, Query, Source, Sources};
use sql_reader_syntax::Join;
use std::alloc::{AllocError, Global};

pub(crate) fn table(name: String, alias: Option<String>) -> Source
    ensures { source_of result ≡ SourceTree.Named (string_bytes name) (option_map bytes_of alias) }
{
    Source::Table(name, alias)
}

pub(crate) fn derived(
    alloc: Global,
    query: Query,
    alias: Option<String>,
) -> Result<Source, AllocError>
    ensures { IfOk result (λ s. source_of s ≡ SourceTree.Derived (query_of query) (option_map bytes_of alias)) }
{
    Ok(Source::Derived(Box::new(alloc, query)?, alias))
}

pub(crate) fn always() -> JoinCondition
    ensures { on_of result ≡ OnTree.Always }
{
    JoinCondition::Always
}

pub(crate) fn on_condition(condition: Expr) -> JoinCondition
    ensures { on_of result ≡ OnTree.On (expr_of condition) }
{
    JoinCondition::On(condition)
}

pub(crate) fn using(columns: Vec<String>) -> JoinCondition
    ensures { on_of result ≡ OnTree.Using (names_of columns) }
{
    JoinCondition::Using(columns)
}

pub(crate) fn joined(join: Join, source: Source, condition: JoinCondition) -> Joined
    ensures { joined_of result ≡ (join, (source_of source, on_of condition)) }
{
    Joined {
        join,
        source,
        condition,
    }
}

pub(crate) fn all_joined(first: Source, others: Vec<Joined>) -> Sources
    ensures { sources_of result ≡ joined_all (FromTree.First (source_of first)) (map joined_of others.items) }
{
    Sources { first, others }
}
