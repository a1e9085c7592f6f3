//! Statement texts.
ghost use Rattle.std.specs.Prelude.{◌≡◌, ◌<◌, Err, IfErr, IfOk, length};
ghost use Rattle.sql_reader_grammar.specs.phrases.Texts.{lexemes_of, max_text};
ghost use Rattle.sql_reader_tokens.specs.source_texts.Sources.{AreCut, source_of};
ghost use Rattle.sql_reader.specs.StatementTexts.{IsAllowed, IsRefusedStatement, SpellsStatement};
ghost use Rattle.sql_reader.specs.Told.{TellsOfStatement};
ghost use Rattle.sql_reader_grammar.specs.statement_trees.StatementView.{statement_of};

use crate::nested_reader::{MAX_LEVELS, Source, statement_within};
use crate::statement_limits::check_limits;
use sql_reader_grammar::{MAX_TEXT, Statement};
use sql_reader_tokens::{Grammar, Token, read_tokens};
use std::alloc::Global;
use values::Fault;

/// The statement that tokens are. Where there are no more tokens than levels, a limit is met by nothing that is spelt.
#[tactic(auto, using(crate::proofs::TextLemmas::told))]
fn settled<'t>(alloc: Global, text: &'t str, tokens: &'t [Token<'t>]) -> Result<Statement, Fault>
    requires { AreCut text.now tokens.now }
    ensures { TellsOfStatement (source_of text.now tokens.now) (lexemes_of tokens.now) result }
{
    let source = Source {
        alloc,
        text,
        tokens,
    };
    match statement_within(source, MAX_LEVELS) {
        Err(Fault::Limit) if tokens.len() <= MAX_LEVELS => Err(Fault::Syntax(text.len())),
        read => read,
    }
}

/// The statement that a text spells. (SELECT; EXPLAIN QUERY PLAN) The fault is `Syntax` where the text spells none, with the
/// place where it stops being tokens, or else of the token at which the reader stopped; `Limit` where the text is longer than
/// 65,536 bytes, spells a statement with more than 100 result columns of one SELECT, 8 sources of one FROM or 64 sources in
/// all, or has more than 100 tokens and spells nothing but statements of more than 100 levels; or `NoMemory`.
#[tactic(auto, using(crate::proofs::TextLemmas::statement_spelt, crate::proofs::TextLemmas::statement_refused, crate::proofs::TextLemmas::tokens_refused))]
pub fn read_select(alloc: Global, text: &str) -> Result<Statement, Fault>
    ensures spelt { IfOk result (λ statement. SpellsStatement text.now (statement_of statement)) }
    ensures within { IfOk result (λ statement. IsAllowed text.now (statement_of statement)) }
    ensures refused { IfErr result (IsRefusedStatement text.now) }
    ensures long { max_text < length text.now → result ≡ Err Fault.Limit }
{
    if text.len() > MAX_TEXT {
        return Err(Fault::Limit);
    }
    let tokens = read_tokens(alloc, Grammar::Select, text)?;
    let statement = settled(alloc, text, tokens.as_slice())?;
    check_limits(&statement)?;
    Ok(statement)
}
