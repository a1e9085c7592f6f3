//! LIMIT and OFFSET.
ghost use Rattle.std.specs.Prelude.{◌∷◌, option_map};
ghost use Rattle.sql_reader_tokens.specs.Lexeme.{Lexeme};
ghost use Rattle.sql_reader_tokens.specs.declared.sign.Sign.TheVariants as s;
ghost use Rattle.sql_reader_exprs.specs.clause_reader.Seen.{limit_of, seen};
ghost use Rattle.sql_reader_grammar.specs.Reading as spec;
ghost use Rattle.sql_reader_grammar.specs.phrases.Outcomes.{Yields};
ghost use Rattle.sql_reader_grammar.specs.phrases.Texts.{lexemes_of};
ghost use Rattle.sql_reader_grammar.specs.statement_trees.StatementView.{whole_of};

use crate::clause_reader::Read;
use sql_reader_grammar::{SignedNumber, after_keyword, syntax_at};
use sql_reader_tokens::{Keyword, Sign, Token, TokenKind};
use values::Fault;

/// A number, behind a minus.
fn negative<'t>(tokens: &'t [Token<'t>], end: usize) -> Result<Read<'t, SignedNumber>, Fault>
    ensures { Yields (seen whole_of) result (spec.whole (Lexeme.Punctuation s.Minus ∷ lexemes_of tokens.now)) }
{
    let [first, rest @ ..] = tokens else {
        return Err(syntax_at(tokens, end));
    };
    match first.kind {
        TokenKind::Number(number) => Ok(Read {
            tree: SignedNumber::Negative(number),
            levels: 0,
            rest,
        }),
        _ => Err(syntax_at(tokens, end)),
    }
}

/// A whole number, behind a minus or none.
fn whole<'t>(tokens: &'t [Token<'t>], end: usize) -> Result<Read<'t, SignedNumber>, Fault>
    ensures { Yields (seen whole_of) result (spec.whole (lexemes_of tokens.now)) }
{
    let [first, rest @ ..] = tokens else {
        return Err(syntax_at(tokens, end));
    };
    match first.kind {
        TokenKind::Number(number) => Ok(Read {
            tree: SignedNumber::Number(number),
            levels: 0,
            rest,
        }),
        TokenKind::Sign(Sign::Minus) => negative(rest, end),
        _ => Err(syntax_at(tokens, end)),
    }
}

/// What stands behind OFFSET, if that is written.
fn offset<'t>(tokens: &'t [Token<'t>], end: usize) -> Result<Read<'t, Option<SignedNumber>>, Fault>
    ensures { Yields (seen (option_map whole_of)) result (spec.offset (lexemes_of tokens.now)) }
{
    let Some(rest) = after_keyword(tokens, Keyword::Offset) else {
        return Ok(Read {
            tree: None,
            levels: 0,
            rest: tokens,
        });
    };
    let number = whole(rest, end)?;
    Ok(Read {
        tree: Some(number.tree),
        levels: number.levels,
        rest: number.rest,
    })
}

/// What stands behind LIMIT and OFFSET, where these are written.
pub fn limit<'t>(
    tokens: &'t [Token<'t>],
    end: usize,
) -> Result<Read<'t, (Option<SignedNumber>, Option<SignedNumber>)>, Fault>
    ensures { Yields (seen limit_of) result (spec.limit (lexemes_of tokens.now)) }
{
    let Some(rest) = after_keyword(tokens, Keyword::Limit) else {
        return Ok(Read {
            tree: (None, None),
            levels: 0,
            rest: tokens,
        });
    };
    let most = whole(rest, end)?;
    let skipped = offset(most.rest, end)?;
    Ok(Read {
        tree: (Some(most.tree), skipped.tree),
        levels: most.levels.max(skipped.levels),
        rest: skipped.rest,
    })
}
