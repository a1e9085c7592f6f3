//! The types of columns.
ghost use Rattle.std.specs.Prelude.{◌≡◌, ◌<◌, ◌≤◌, IfOk, length, map, string_bytes, true};
ghost use Rattle.sql_reader_creates.specs.column_reader.ColumnReading as spec;
ghost use Rattle.sql_reader_grammar.specs.phrases.Steps.{HasFound};
ghost use Rattle.sql_reader_grammar.specs.phrases.Texts.{lexemes_of};
ghost use Rattle.sql_reader_grammar.specs.create_trees.CreateView.{type_of};

use sql_reader_grammar::{ColumnType, after_sign, name, syntax_at};
use sql_reader_tokens::{Quoting, Sign, Token, TokenKind};
use std::alloc::Global;
use values::Fault;

/// Whether an unquoted name stands at the front.
fn begins_word(tokens: &[Token<'_>]) -> bool
    ensures { result ≡ spec.begins_word (lexemes_of tokens.now) }
{
    matches!(
        tokens,
        [
            Token {
                kind: TokenKind::Name(Quoting::Bare, _),
                ..
            },
            ..
        ]
    )
}

/// The unquoted names at the front, of which there is one, and what is behind them.
fn type_words<'t>(
    alloc: Global,
    tokens: &'t [Token<'t>],
    end: usize,
) -> Result<(Vec<String>, &'t [Token<'t>]), Fault>
    requires { spec.begins_word (lexemes_of tokens.now) ≡ true }
    ensures value { HasFound (λ r. (map (λ n. string_bytes n) r.0.items, lexemes_of r.1.now)) result
        (spec.words (lexemes_of tokens.now)) }
    ensures no_longer { IfOk result (λ r. length r.1.now ≤ length tokens.now) }
{
    let mut words = Vec::new(alloc);
    let (first, mut rest) = name(alloc, tokens, end)?;
    words.push(first)?;
    while begins_word(rest) {
        let (next, after) = name(alloc, rest, end)?;
        words.push(next)?;
        rest = after;
    }
    Ok((words, rest))
}

/// What is behind the number at the front.
fn after_number<'t>(tokens: &'t [Token<'t>], end: usize) -> Result<&'t [Token<'t>], Fault>
    ensures value { HasFound (λ r. lexemes_of r.now) result (spec.after_number (lexemes_of tokens.now)) }
    ensures shorter { IfOk result (λ r. length r.now < length tokens.now) }
{
    match tokens {
        [
            Token {
                kind: TokenKind::Number(_),
                ..
            },
            rest @ ..,
        ] => Ok(rest),
        _ => Err(syntax_at(tokens, end)),
    }
}

/// What is behind a comma and a number, if a comma stands at the front.
fn after_second<'t>(tokens: &'t [Token<'t>], end: usize) -> Result<&'t [Token<'t>], Fault>
    ensures value { HasFound (λ r. lexemes_of r.now) result (spec.after_second (lexemes_of tokens.now)) }
    ensures no_longer { IfOk result (λ r. length r.now ≤ length tokens.now) }
{
    match after_sign(tokens, Sign::Comma) {
        Some(rest) => after_number(rest, end),
        None => Ok(tokens),
    }
}

/// Whether a size stands at the front, and what is behind it.
fn size<'t>(tokens: &'t [Token<'t>], end: usize) -> Result<(bool, &'t [Token<'t>]), Fault>
    ensures value { HasFound (λ r. (r.0, lexemes_of r.1.now)) result (spec.size (lexemes_of tokens.now)) }
    ensures no_longer { IfOk result (λ r. length r.1.now ≤ length tokens.now) }
{
    let Some(inside) = after_sign(tokens, Sign::Open) else {
        return Ok((false, tokens));
    };
    let rest = after_number(inside, end)?;
    let rest = after_second(rest, end)?;
    match after_sign(rest, Sign::Close) {
        Some(after) => Ok((true, after)),
        None => Err(syntax_at(rest, end)),
    }
}

/// The type at the front, which may be none, and what is behind it.
pub(crate) fn column_type<'t>(
    alloc: Global,
    tokens: &'t [Token<'t>],
    end: usize,
) -> Result<(ColumnType, &'t [Token<'t>]), Fault>
    ensures value { HasFound (λ r. (type_of r.0, lexemes_of r.1.now)) result (spec.column_type (lexemes_of tokens.now)) }
    ensures no_longer { IfOk result (λ r. length r.1.now ≤ length tokens.now) }
{
    if !begins_word(tokens) {
        let ty = ColumnType {
            words: Vec::new(alloc),
            is_sized: false,
        };
        return Ok((ty, tokens));
    }
    let (words, rest) = type_words(alloc, tokens, end)?;
    let (is_sized, rest) = size(rest, end)?;
    Ok((ColumnType { words, is_sized }, rest))
}
