//! What follows REFERENCES. Nothing of it is kept.
ghost use Rattle.std.specs.Prelude.{◌≡◌, ◌<◌, ◌≤◌, IfOk, IfSome, length, map, option_map, string_bytes};
ghost use Rattle.sql_reader_creates.specs.column_reader.ColumnGrammar as grammar;
ghost use Rattle.sql_reader_creates.specs.column_reader.ColumnReading as spec;
ghost use Rattle.sql_reader_grammar.specs.phrases.Steps as steps;
ghost use Rattle.sql_reader_grammar.specs.phrases.Steps.{HasFound};
ghost use Rattle.sql_reader_grammar.specs.phrases.Texts.{lexemes_of};
ghost use Rattle.sql_reader_tokens.specs.Content.{lexeme_of};

use sql_reader_grammar::{after_keyword, after_sign, after_word, name, syntax_at};
use sql_reader_tokens::{Keyword, Sign, Token, TokenKind};
use std::alloc::Global;
use values::Fault;

/// What is behind a name, if one stands at the front.
pub(crate) fn after_name<'t>(tokens: &'t [Token<'t>]) -> Option<&'t [Token<'t>]>
    ensures found { option_map (λ r. lexemes_of r.now) result ≡ spec.after_name (lexemes_of tokens.now) }
    ensures shorter { IfSome result (λ r. length r.now < length tokens.now) }
{
    match tokens {
        [
            Token {
                kind: TokenKind::Name(_, _),
                ..
            },
            rest @ ..,
        ] => Some(rest),
        _ => None,
    }
}

/// Names with commas between them, and what is behind them.
fn name_list<'t>(
    alloc: Global,
    tokens: &'t [Token<'t>],
    end: usize,
) -> Result<(Vec<String>, &'t [Token<'t>]), Fault>
    ensures value { HasFound (λ r. (map (λ n. string_bytes n) r.0.items, lexemes_of r.1.now)) result
        (steps.listed steps.name (lexemes_of tokens.now)) }
    ensures shorter { IfOk result (λ r. length r.1.now < length tokens.now) }
{
    let mut names = Vec::new(alloc);
    let (first, mut rest) = name(alloc, tokens, end)?;
    names.push(first)?;
    while let Some(more) = after_sign(rest, Sign::Comma) {
        let (next, after) = name(alloc, more, end)?;
        names.push(next)?;
        rest = after;
    }
    Ok((names, rest))
}

/// Names with commas between them, and what is behind the parenthesis that closes them.
pub fn names<'t>(
    alloc: Global,
    tokens: &'t [Token<'t>],
    end: usize,
) -> Result<(Vec<String>, &'t [Token<'t>]), Fault>
    ensures value { HasFound (λ r. (map (λ n. string_bytes n) r.0.items, lexemes_of r.1.now)) result
        (spec.names (lexemes_of tokens.now)) }
    ensures shorter { IfOk result (λ r. length r.1.now < length tokens.now) }
{
    let (names, rest) = name_list(alloc, tokens, end)?;
    match after_sign(rest, Sign::Close) {
        Some(after) => Ok((names, after)),
        None => Err(syntax_at(rest, end)),
    }
}

/// What is behind columns in parentheses, if they stand at the front.
fn after_columns<'t>(
    alloc: Global,
    tokens: &'t [Token<'t>],
    end: usize,
) -> Result<&'t [Token<'t>], Fault>
    ensures value { HasFound (λ r. lexemes_of r.now) result (spec.maybe_columns (lexemes_of tokens.now)) }
    ensures no_longer { IfOk result (λ r. length r.now ≤ length tokens.now) }
{
    let Some(inside) = after_sign(tokens, Sign::Open) else {
        return Ok(tokens);
    };
    let (_columns, rest) = names(alloc, inside, end)?;
    Ok(rest)
}

/// Whether this word is DELETE or UPDATE.
fn is_event(word: &TokenKind<'_>) -> bool
    ensures { result ≡ grammar.is_event (lexeme_of word.now) }
{
    word.is_word("DELETE") || word.is_word("UPDATE")
}

/// Whether this word is CASCADE or RESTRICT.
fn is_reaction(word: &TokenKind<'_>) -> bool
    ensures { result ≡ grammar.is_reaction (lexeme_of word.now) }
{
    word.is_word("CASCADE") || word.is_word("RESTRICT")
}

/// What is behind NULL or DEFAULT.
fn after_set<'t>(tokens: &'t [Token<'t>], end: usize) -> Result<&'t [Token<'t>], Fault>
    ensures value { HasFound (λ r. lexemes_of r.now) result (spec.after_set (lexemes_of tokens.now)) }
    ensures shorter { IfOk result (λ r. length r.now < length tokens.now) }
{
    match tokens {
        [
            Token {
                kind: TokenKind::Keyword(Keyword::Null | Keyword::Default),
                ..
            },
            rest @ ..,
        ] => Ok(rest),
        _ => Err(syntax_at(tokens, end)),
    }
}

/// What is behind the reaction to an event.
fn after_reaction<'t>(tokens: &'t [Token<'t>], end: usize) -> Result<&'t [Token<'t>], Fault>
    ensures value { HasFound (λ r. lexemes_of r.now) result (spec.after_reaction (lexemes_of tokens.now)) }
    ensures shorter { IfOk result (λ r. length r.now < length tokens.now) }
{
    let [first, rest @ ..] = tokens else {
        return Err(Fault::Syntax(end));
    };
    if is_reaction(&first.kind) {
        return Ok(rest);
    }
    if first.kind.is_word("SET") {
        return after_set(rest, end);
    }
    if !first.kind.is_word("NO") {
        return Err(Fault::Syntax(first.place));
    }
    match after_word(rest, "ACTION") {
        Some(after) => Ok(after),
        None => Err(syntax_at(rest, end)),
    }
}

/// What is behind an event and the reaction to it.
fn after_act<'t>(tokens: &'t [Token<'t>], end: usize) -> Result<&'t [Token<'t>], Fault>
    ensures value { HasFound (λ r. (tt, lexemes_of r.now)) result (spec.act (lexemes_of tokens.now)) }
    ensures shorter { IfOk result (λ r. length r.now < length tokens.now) }
{
    match tokens {
        [first, rest @ ..] if is_event(&first.kind) => after_reaction(rest, end),
        _ => Err(syntax_at(tokens, end)),
    }
}

/// What is behind the table, the columns and the actions that a column refers by.
pub fn after_reference<'t>(
    alloc: Global,
    tokens: &'t [Token<'t>],
    end: usize,
) -> Result<&'t [Token<'t>], Fault>
    ensures value { HasFound (λ r. lexemes_of r.now) result (spec.refers (lexemes_of tokens.now)) }
    ensures shorter { IfOk result (λ r. length r.now < length tokens.now) }
{
    let Some(columns) = after_name(tokens) else {
        return Err(syntax_at(tokens, end));
    };
    let mut rest = after_columns(alloc, columns, end)?;
    while let Some(act) = after_keyword(rest, Keyword::On) {
        let after = after_act(act, end)?;
        rest = after;
    }
    Ok(rest)
}
