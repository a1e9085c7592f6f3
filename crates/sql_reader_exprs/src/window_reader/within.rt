//! What reads the phrases that a phrase holds.
ghost use Rattle.std.specs.Prelude.{◌≡◌, ◌≤◌, string_bytes, IfOk};
ghost use Rattle.sql_reader_exprs.specs.clause_reader.Seen.{seen};
ghost use Rattle.sql_reader_exprs.specs.window_reader.Setting.{Setting, inner_at};
ghost use Rattle.sql_reader_grammar.specs.phrases.Outcomes.{Yields};
ghost use Rattle.sql_reader_grammar.specs.phrases.Texts.{lexemes_of};
ghost use Rattle.sql_reader_grammar.specs.statement_trees.TreeView.{expr_of, query_of};

use crate::clause_reader::Read;
use sql_reader_grammar::{Expr, Query};
use sql_reader_tokens::Token;
use std::alloc::{AllocError, Global};
use values::Fault;

/// What reads phrases that stand in one more construct: so many levels may stand around a token of theirs.
pub trait Inner<'t> {
    ghost setting: { Self → Setting };

    ghost reads: { Self → Type 0 };

    /// An expression of this level of the grammar at least.
    fn expr(&self, least: u8, tokens: &'t [Token<'t>]) -> Result<Read<'t, Expr>, Fault>
        requires { reads self.now }
        ensures value { Yields (seen expr_of) result
            ((inner_at (setting self.now)).expr least (lexemes_of tokens.now)) }
        ensures within { IfOk result (λ r. r.levels ≤ (setting self.now).depth) };

    /// A query.
    fn query(&self, tokens: &'t [Token<'t>]) -> Result<Read<'t, Query>, Fault>
        requires { reads self.now }
        ensures value { Yields (seen query_of) result ((inner_at (setting self.now)).query (lexemes_of tokens.now)) }
        ensures within { IfOk result (λ r. r.levels ≤ (setting self.now).depth) };

    /// The source text of a phrase at whose beginning so many tokens are left, and so many behind it.
    fn source_text(&self, left: usize, behind: usize) -> Result<String, AllocError>
        requires { reads self.now }
        ensures { IfOk result (λ text. string_bytes text ≡ (setting self.now).source left behind) };

    /// How many levels there may be.
    fn depth(&self) -> usize
        ensures { result ≡ (setting self.now).depth };

    fn alloc(&self) -> Global;

    /// Where the text ends.
    fn end(&self) -> usize;
}
