//! Phrases and their trees.
ghost use Rattle.std.specs.Prelude.{◌≤◌, IfOk};
ghost use Rattle.sql_reader_exprs.specs.clause_reader.Seen.{seen};
ghost use Rattle.sql_reader.specs.nested_reader.Phrases.{phrase_by, tree_of};
ghost use Rattle.sql_reader_grammar.specs.phrases.Outcomes.{Yields};
ghost use Rattle.sql_reader_grammar.specs.phrases.Texts.{lexemes_of};

use crate::query_reader::{InnerQueries, query_by, select};
use sql_reader_exprs::{Read, expr_by};
use sql_reader_grammar::{Expr, Query, SelectCore};
use sql_reader_tokens::Token;
use values::Fault;

/// Which phrase is read.
#[derive(Clone, Copy)]
pub(crate) enum Phrase {
    /// An expression of this level of the grammar at least.
    Expr(u8),
    Select,
    Query,
}

/// A phrase that is asked for, and the tokens from where it begins.
#[derive(Clone, Copy)]
pub(crate) struct Asked<'t> {
    pub(crate) phrase: Phrase,
    pub(crate) tokens: &'t [Token<'t>],
}

/// The tree of a phrase.
#[derive(Drop)]
pub(crate) enum Tree {
    Expr(Expr),
    Select(SelectCore),
    Query(Query),
}

/// A phrase, over what reads the phrases in it.
pub(crate) fn phrase_over<'t, I: InnerQueries<'t>>(
    inner: &I,
    asked: Asked<'t>,
) -> Result<Read<'t, Tree>, Fault>
    requires { I.reads inner.now }
    ensures value { Yields (seen tree_of) result
        (phrase_by (I.setting inner.now) asked.entry.phrase (lexemes_of asked.entry.tokens.now)) }
    ensures within { IfOk result (λ r. r.levels ≤ (I.setting inner.now).depth) }
{
    let tokens = asked.tokens;
    match asked.phrase {
        Phrase::Expr(least) => {
            let read = expr_by(inner, least, tokens)?;
            Ok(Read {
                tree: Tree::Expr(read.tree),
                levels: read.levels,
                rest: read.rest,
            })
        }
        Phrase::Select => {
            let read = select(inner, tokens)?;
            Ok(Read {
                tree: Tree::Select(read.tree),
                levels: read.levels,
                rest: read.rest,
            })
        }
        Phrase::Query => {
            let read = query_by(inner, tokens)?;
            Ok(Read {
                tree: Tree::Query(read.tree),
                levels: read.levels,
                rest: read.rest,
            })
        }
    }
}
