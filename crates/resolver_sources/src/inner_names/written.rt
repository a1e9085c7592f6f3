//! The queries inside expressions, as written.
ghost use Rattle.std.specs.Prelude.{◌≡◌, IsTrue, IfSome, Some, map, option_map, slice_get};
ghost use Rattle.resolver_sources.specs.inner_names.InnerView.{asked_of};
ghost use Rattle.semantics_names.specs.Parts.{inner_tree};
ghost use Rattle.sql_reader_grammar.specs.statement_trees.TreeView.{expr_of};

use sql_reader_grammar::{Expr, Query, same_query};

/// A query inside an expression, as it is written. (SQL Language Expressions)
#[derive(Clone, Copy)]
pub enum Asked<'a> {
    /// Whose values are the members of an IN.
    Values(&'a Query),
    /// Whose rows an EXISTS asks for.
    Exists(&'a Query),
}

/// The query that a part of an expression has inside it.
pub(crate) fn inside(part: &Expr) -> Option<Asked<'_>>
    ensures { option_map asked_of result ≡ inner_tree (expr_of part.now) }
{
    match part {
        Expr::InQuery(_, _, query) => Some(Asked::Values(query)),
        Expr::Exists(query) => Some(Asked::Exists(query)),
        _ => None,
    }
}

// Whether they are written alike.
fn is_alike(a: Asked<'_>, b: Asked<'_>) -> bool
    ensures { IsTrue result → asked_of a.entry ≡ asked_of b.entry }
{
    match (a, b) {
        (Asked::Values(x), Asked::Values(y)) => same_query(x, y),
        (Asked::Exists(x), Asked::Exists(y)) => same_query(x, y),
        _ => false,
    }
}

/// The place of one of these that is written alike.
pub(crate) fn place_of_alike(written: &[Asked<'_>], asked: Asked<'_>) -> Option<usize>
    ensures { IfSome result (λ at. slice_get (map asked_of written.now) at ≡ Some (asked_of asked.entry)) }
{
    for (at, other) in written.iter().enumerate() {
        if is_alike(*other, asked) {
            return Some(at);
        }
    }
    None
}
