//! What reads phrases in one more construct.
ghost use Rattle.sql_reader.specs.nested_reader.Phrases.{ReadsAt, setting_of};
ghost use Rattle.sql_reader_tokens.specs.source_texts.Sources.{AreCut};

use crate::nested_reader::sources::Source;
use crate::nested_reader::trees::{Asked, Phrase, Tree};
use crate::query_reader::InnerQueries;
use sql_reader_exprs::{Inner, Read};
use sql_reader_grammar::{Expr, Query, SelectCore};
use sql_reader_tokens::{Token, source_text};
use std::alloc::{AllocError, Global};
use values::Fault;

/// What reads phrases of a text by `read`, of which so many levels may stand around a token.
#[derive(Clone, Copy)]
pub(crate) struct Within<'s, F> {
    pub(crate) source: Source<'s>,
    pub(crate) depth: usize,
    pub(crate) read: F,
}

impl<'s, 't, F: Fn(Asked<'t>) -> Result<Read<'t, Tree>, Fault>> Inner<'t> for Within<'s, F> {
    ghost setting = { λ w. setting_of w.source w.depth };

    ghost reads = { λ w. AreCut w.source.text.now w.source.tokens.now × F.IsAlwaysCallable w.read × ReadsAt w.source w.depth (λ asked r. F.post w.read asked r) };

    #[tactic(auto, using(crate::proofs::lemmas::nested_reader::PhraseLemmas::made_err, crate::proofs::lemmas::nested_reader::PhraseLemmas::expr_ok, crate::proofs::lemmas::nested_reader::PhraseLemmas::expr_no_select, crate::proofs::lemmas::nested_reader::PhraseLemmas::expr_no_query))]
    fn expr(&self, least: u8, tokens: &'t [Token<'t>]) -> Result<Read<'t, Expr>, Fault> {
        let asked = Asked {
            phrase: Phrase::Expr(least),
            tokens,
        };
        let Read { tree, levels, rest } = (self.read)(asked)?;
        match tree {
            Tree::Expr(tree) => Ok(Read { tree, levels, rest }),
            Tree::Select(_) | Tree::Query(_) => unreachable!(),
        }
    }

    #[tactic(auto, using(crate::proofs::lemmas::nested_reader::PhraseLemmas::made_err, crate::proofs::lemmas::nested_reader::PhraseLemmas::query_ok, crate::proofs::lemmas::nested_reader::PhraseLemmas::query_no_select, crate::proofs::lemmas::nested_reader::PhraseLemmas::query_no_expr))]
    fn query(&self, tokens: &'t [Token<'t>]) -> Result<Read<'t, Query>, Fault> {
        let asked = Asked {
            phrase: Phrase::Query,
            tokens,
        };
        let Read { tree, levels, rest } = (self.read)(asked)?;
        match tree {
            Tree::Query(tree) => Ok(Read { tree, levels, rest }),
            Tree::Expr(_) | Tree::Select(_) => unreachable!(),
        }
    }

    fn source_text(&self, left: usize, behind: usize) -> Result<String, AllocError> {
        let text = source_text(self.source.text, self.source.tokens, left, behind);
        String::from_str(self.source.alloc, text)
    }

    fn depth(&self) -> usize {
        self.depth
    }

    fn alloc(&self) -> Global {
        self.source.alloc
    }

    fn end(&self) -> usize {
        self.source.text.len()
    }
}

impl<'s, 't, F: Fn(Asked<'t>) -> Result<Read<'t, Tree>, Fault>> InnerQueries<'t> for Within<'s, F> {
    #[tactic(auto, using(crate::proofs::lemmas::nested_reader::PhraseLemmas::made_err, crate::proofs::lemmas::nested_reader::PhraseLemmas::select_ok, crate::proofs::lemmas::nested_reader::PhraseLemmas::select_no_expr, crate::proofs::lemmas::nested_reader::PhraseLemmas::select_no_query))]
    fn select(&self, tokens: &'t [Token<'t>]) -> Result<Read<'t, SelectCore>, Fault> {
        let asked = Asked {
            phrase: Phrase::Select,
            tokens,
        };
        let Read { tree, levels, rest } = (self.read)(asked)?;
        match tree {
            Tree::Select(tree) => Ok(Read { tree, levels, rest }),
            Tree::Expr(_) | Tree::Query(_) => unreachable!(),
        }
    }
}
