//! The conditions of partial indexes.
ghost use Rattle.std.specs.Prelude.{◌≡◌, is_some, option_map};
ghost use Rattle.sql_reader_creates.specs.IndexGrammar.{has_query};
ghost use Rattle.sql_reader_creates.specs.IndexReading as spec;
ghost use Rattle.sql_reader_grammar.specs.phrases.Outcomes.{Yields};
ghost use Rattle.sql_reader_grammar.specs.phrases.Texts.{lexemes_of, max_levels};
ghost use Rattle.sql_reader_tokens.specs.source_texts.Sources.{AreCut, source_of};
ghost use Rattle.sql_reader_grammar.specs.statement_trees.TreeView.{expr_of};

use sql_reader::{MAX_LEVELS, Source, expression_within};
use sql_reader_grammar::{Expr, syntax_at};
use sql_reader_tokens::{Keyword, Token, TokenKind};
use values::Fault;

/// Where a query begins among tokens.
fn query_place(tokens: &[Token<'_>]) -> Option<usize>
    ensures { is_some result ≡ has_query (lexemes_of tokens.now) }
{
    for token in tokens {
        if matches!(token.kind, TokenKind::Keyword(Keyword::Select)) {
            return Some(token.place);
        }
    }
    None
}

/// The condition behind WHERE, which is all of these tokens of a text.
#[tactic(auto, unfolding(crate::specs::IndexReading::predicate))]
fn predicate<'t>(source: Source<'_>, tokens: &'t [Token<'t>]) -> Result<Expr, Fault>
    requires { AreCut source.text.now source.tokens.now }
    ensures { Yields expr_of result
        (spec.predicate (source_of source.entry.text.now source.entry.tokens.now) max_levels (lexemes_of tokens.now)) }
{
    if let Some(place) = query_place(tokens) {
        return Err(Fault::Syntax(place));
    }
    let read = expression_within(source, MAX_LEVELS, tokens)?;
    match read.rest {
        [] => Ok(read.tree),
        rest => Err(syntax_at(rest, source.text.len())),
    }
}

/// The condition that stands here, if one does, which is all of these tokens of a text. (Partial Indexes)
pub(crate) fn condition<'t>(
    source: Source<'_>,
    tokens: &'t [Token<'t>],
) -> Result<Option<Expr>, Fault>
    requires { AreCut source.text.now source.tokens.now }
    ensures { Yields (option_map expr_of) result
        (spec.condition (source_of source.entry.text.now source.entry.tokens.now) max_levels (lexemes_of tokens.now)) }
{
    match tokens {
        [] => Ok(None),
        [
            Token {
                kind: TokenKind::Keyword(Keyword::Where),
                ..
            },
            rest @ ..,
        ] => Ok(Some(predicate(source, rest)?)),
        _ => Err(syntax_at(tokens, source.text.len())),
    }
}
