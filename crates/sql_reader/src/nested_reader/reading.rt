//! The cycle of the readers, a whole statement, and an expression alone.
ghost use Rattle.std.specs.Prelude.{◌<◌, ◌≤◌, IfOk};
ghost use Rattle.sql_reader_exprs.specs.clause_reader.Seen.{seen};
ghost use Rattle.sql_reader_grammar.specs.Operators.{or_level};
ghost use Rattle.sql_reader_grammar.specs.Reading as spec;
ghost use Rattle.sql_reader.specs.nested_reader.Phrases.{phrase_in, setting_of, tree_of};
ghost use Rattle.sql_reader_grammar.specs.phrases.Outcomes.{Yields};
ghost use Rattle.sql_reader_grammar.specs.phrases.Texts.{lexemes_of};
ghost use Rattle.sql_reader_tokens.specs.source_texts.Sources.{AreCut, source_of};
ghost use Rattle.sql_reader_grammar.specs.statement_trees.StatementView.{statement_of};
ghost use Rattle.sql_reader_grammar.specs.statement_trees.TreeView.{expr_of};
ghost use Rattle.sql_reader_exprs.specs.window_reader.Setting.{at};

use crate::nested_reader::sources::Source;
use crate::nested_reader::trees::{Asked, Tree, phrase_over};
use crate::nested_reader::within::Within;
use crate::statement_reader::statement;
use sql_reader_exprs::{OR_LEVEL, Read, expr_by};
use sql_reader_grammar::{Expr, Statement};
use sql_reader_tokens::Token;
use values::Fault;

/// The most SELECTs, operators, calls, CASEs and parentheses that a token stands in.
pub const MAX_LEVELS: usize = 100;

/// A phrase in one more construct, of which `depth` may stand around a token.
#[tactic(auto, using(crate::proofs::lemmas::nested_reader::PhraseLemmas::phrase_err, crate::proofs::lemmas::nested_reader::PhraseLemmas::phrase_ok, crate::proofs::lemmas::nested_reader::PhraseLemmas::phrase_limit))]
fn read<'t>(source: Source<'_>, depth: usize, asked: Asked<'t>) -> Result<Read<'t, Tree>, Fault>
    requires { AreCut source.text.now source.tokens.now }
    ensures value { Yields (seen tree_of) result
        (phrase_in (setting_of source.entry depth) asked.entry.phrase (lexemes_of asked.entry.tokens.now)) }
    ensures within { IfOk result (λ r. r.levels ≤ depth) }
{
    if depth == 0 {
        return Err(Fault::Limit);
    }
    let below = depth - 1;
    let read = |asked|
        requires { AreCut source.text.now source.tokens.now }
        ensures value { Yields (seen tree_of) result
            (phrase_in (setting_of source.entry below) asked.entry.phrase (lexemes_of asked.entry.tokens.now)) }
        ensures within { IfOk result (λ r. r.levels ≤ below) }
    { read(source, below, asked) };
    let within = Within {
        source,
        depth: below,
        read,
    };
    let mut read = phrase_over(&within, asked)?;
    read.levels += 1;
    Ok(read)
}

/// The statement that a text's tokens are, in which at most so many levels may stand around a token.
pub fn statement_within(source: Source<'_>, levels: usize) -> Result<Statement, Fault>
    requires cut { AreCut source.text.now source.tokens.now }
    requires few { levels < 1000 }
    ensures { Yields statement_of result
        (spec.statement (source_of source.entry.text.now source.entry.tokens.now) levels
        (lexemes_of source.entry.tokens.now)) }
{
    // What a statement holds stands in one construct more, which is no level.
    let depth = levels + 1;
    let read = |asked|
        requires { AreCut source.text.now source.tokens.now }
        ensures value { Yields (seen tree_of) result
            (phrase_in (setting_of source.entry depth) asked.entry.phrase (lexemes_of asked.entry.tokens.now)) }
        ensures within { IfOk result (λ r. r.levels ≤ depth) }
    { read(source, depth, asked) };
    let within = Within {
        source,
        depth,
        read,
    };
    statement(&within, source.tokens)
}

/// The expression at the front of some of a text's tokens, of which at most so many levels may stand around a token.
pub fn expression_within<'t>(
    source: Source<'_>,
    levels: usize,
    tokens: &'t [Token<'t>],
) -> Result<Read<'t, Expr>, Fault>
    requires { AreCut source.text.now source.tokens.now }
    ensures value { Yields (seen expr_of) result
        (at spec.expr_by (setting_of source.entry levels) or_level (lexemes_of tokens.now)) }
    ensures within { IfOk result (λ r. r.levels ≤ levels) }
{
    let read = |asked|
        requires { AreCut source.text.now source.tokens.now }
        ensures value { Yields (seen tree_of) result
            (phrase_in (setting_of source.entry levels) asked.entry.phrase (lexemes_of asked.entry.tokens.now)) }
        ensures within { IfOk result (λ r. r.levels ≤ levels) }
    { read(source, levels, asked) };
    let within = Within {
        source,
        depth: levels,
        read,
    };
    expr_by(&within, OR_LEVEL, tokens)
}
