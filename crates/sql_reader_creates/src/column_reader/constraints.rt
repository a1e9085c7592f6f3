//! Constraints of columns.
ghost use Rattle.std.specs.Prelude.{◌≡◌, ◌<◌, ◌≤◌, IfOk, length};
ghost use Rattle.sql_reader_creates.specs.column_reader.ColumnReading as spec;
ghost use Rattle.sql_reader_grammar.specs.phrases.Steps.{HasFound};
ghost use Rattle.sql_reader_grammar.specs.phrases.Texts.{lexemes_of};
ghost use Rattle.sql_reader_grammar.specs.create_trees.CreateTrees.{DefaultTree};
ghost use Rattle.sql_reader_grammar.specs.create_trees.CreateView.{constraint_of, default_of};

use crate::column_reader::bodies::{balanced, body};
use crate::column_reader::references::{after_name, after_reference};
use sql_reader_grammar::{
    ColumnConstraint, DefaultValue, KeyOrder, after_keyword, after_word, name, syntax_at,
};
use sql_reader_tokens::{Keyword, Sign, Token, TokenKind, blob_content, text_content};
use std::alloc::Global;
use values::Fault;

/// Whether a constraint begins here.
pub(crate) fn begins_constraint(tokens: &[Token<'_>]) -> bool
    ensures { result ≡ spec.begins_constraint (lexemes_of tokens.now) }
{
    matches!(
        tokens,
        [
            Token {
                kind: TokenKind::Keyword(
                    Keyword::Constraint
                        | Keyword::Primary
                        | Keyword::Not
                        | Keyword::Unique
                        | Keyword::Check
                        | Keyword::Default
                        | Keyword::Collate
                        | Keyword::References
                ),
                ..
            },
            ..
        ]
    )
}

/// The order of a key, and what is behind it.
pub fn key_order<'t>(tokens: &'t [Token<'t>]) -> (KeyOrder, &'t [Token<'t>])
    ensures value { (result.0, lexemes_of result.1.now) ≡ spec.order (lexemes_of tokens.now) }
    ensures no_longer { length result.1.now ≤ length tokens.now }
{
    if let Some(rest) = after_word(tokens, "ASC") {
        return (KeyOrder::Ascending, rest);
    }
    match after_word(tokens, "DESC") {
        Some(rest) => (KeyOrder::Descending, rest),
        None => (KeyOrder::Ascending, tokens),
    }
}

/// Whether AUTOINCREMENT stands at the front, and what is behind it.
fn increments<'t>(tokens: &'t [Token<'t>]) -> (bool, &'t [Token<'t>])
    ensures value { (result.0, lexemes_of result.1.now) ≡ spec.increments (lexemes_of tokens.now) }
    ensures no_longer { length result.1.now ≤ length tokens.now }
{
    match after_word(tokens, "AUTOINCREMENT") {
        Some(rest) => (true, rest),
        None => (false, tokens),
    }
}

/// The key whose PRIMARY stands before these tokens, and what is behind it.
fn primary_key<'t>(
    tokens: &'t [Token<'t>],
    end: usize,
) -> Result<(ColumnConstraint, &'t [Token<'t>]), Fault>
    ensures value { HasFound (λ r. (constraint_of r.0, lexemes_of r.1.now)) result
        (spec.primary_key (lexemes_of tokens.now)) }
    ensures shorter { IfOk result (λ r. length r.1.now < length tokens.now) }
{
    let Some(rest) = after_word(tokens, "KEY") else {
        return Err(syntax_at(tokens, end));
    };
    let (order, rest) = key_order(rest);
    let (automatic, rest) = increments(rest);
    Ok((ColumnConstraint::PrimaryKey(order, automatic), rest))
}

/// The number at the front, and what is behind it.
fn number<'t>(tokens: &'t [Token<'t>], end: usize) -> Result<(i64, &'t [Token<'t>]), Fault>
    ensures plus { HasFound (λ r. (DefaultTree.Number r.0, lexemes_of r.1.now)) result
        (spec.signed (λ n. DefaultTree.Number n) (lexemes_of tokens.now)) }
    ensures minus { HasFound (λ r. (DefaultTree.Negative r.0, lexemes_of r.1.now)) result
        (spec.signed (λ n. DefaultTree.Negative n) (lexemes_of tokens.now)) }
    ensures shorter { IfOk result (λ r. length r.1.now < length tokens.now) }
{
    let [first, rest @ ..] = tokens else {
        return Err(Fault::Syntax(end));
    };
    match first.kind {
        TokenKind::Number(number) => Ok((number, rest)),
        _ => Err(Fault::Syntax(first.place)),
    }
}

/// What stands behind DEFAULT, and what is behind that.
fn default_value<'t>(
    alloc: Global,
    tokens: &'t [Token<'t>],
    end: usize,
) -> Result<(DefaultValue, &'t [Token<'t>]), Fault>
    ensures value { HasFound (λ r. (default_of r.0, lexemes_of r.1.now)) result
        (spec.default_value (lexemes_of tokens.now)) }
    ensures shorter { IfOk result (λ r. length r.1.now < length tokens.now) }
{
    let [first, rest @ ..] = tokens else {
        return Err(Fault::Syntax(end));
    };
    match first.kind {
        TokenKind::Number(number) => Ok((DefaultValue::Number(number), rest)),
        TokenKind::Text(inside) => {
            let content = text_content(alloc, inside)?;
            Ok((DefaultValue::Text(content), rest))
        }
        TokenKind::Blob(digits) => {
            let bytes = blob_content(alloc, digits)?;
            Ok((DefaultValue::Blob(bytes), rest))
        }
        TokenKind::Keyword(Keyword::Null) => Ok((DefaultValue::Null, rest)),
        TokenKind::Sign(Sign::Plus) => {
            let (number, rest) = number(rest, end)?;
            Ok((DefaultValue::Number(number), rest))
        }
        TokenKind::Sign(Sign::Minus) => {
            let (number, rest) = number(rest, end)?;
            Ok((DefaultValue::Negative(number), rest))
        }
        TokenKind::Sign(Sign::Open) => {
            let rest = balanced(rest, end)?;
            Ok((DefaultValue::Expression, rest))
        }
        _ => Err(syntax_at(tokens, end)),
    }
}

/// What is behind CONSTRAINT and a name, if they stand at the front.
pub fn after_title<'t>(tokens: &'t [Token<'t>], end: usize) -> Result<&'t [Token<'t>], Fault>
    ensures value { HasFound (λ r. lexemes_of r.now) result (spec.after_title (lexemes_of tokens.now)) }
    ensures no_longer { IfOk result (λ r. length r.now ≤ length tokens.now) }
{
    let Some(title) = after_keyword(tokens, Keyword::Constraint) else {
        return Ok(tokens);
    };
    match after_name(title) {
        Some(rest) => Ok(rest),
        None => Err(syntax_at(title, end)),
    }
}

/// NULL behind NOT, and what is behind it.
fn not_null<'t>(
    tokens: &'t [Token<'t>],
    end: usize,
) -> Result<(ColumnConstraint, &'t [Token<'t>]), Fault>
    ensures value { HasFound (λ r. (constraint_of r.0, lexemes_of r.1.now)) result
        (spec.not_null (lexemes_of tokens.now)) }
    ensures shorter { IfOk result (λ r. length r.1.now < length tokens.now) }
{
    match after_keyword(tokens, Keyword::Null) {
        Some(rest) => Ok((ColumnConstraint::NotNull, rest)),
        None => Err(syntax_at(tokens, end)),
    }
}

/// What a constraint without its own name demands, and what is behind it.
fn demand<'t>(
    alloc: Global,
    tokens: &'t [Token<'t>],
    end: usize,
) -> Result<(ColumnConstraint, &'t [Token<'t>]), Fault>
    ensures value { HasFound (λ r. (constraint_of r.0, lexemes_of r.1.now)) result (spec.demand (lexemes_of tokens.now)) }
    ensures shorter { IfOk result (λ r. length r.1.now < length tokens.now) }
{
    let [first, rest @ ..] = tokens else {
        return Err(Fault::Syntax(end));
    };
    match first.kind {
        TokenKind::Keyword(Keyword::Primary) => primary_key(rest, end),
        TokenKind::Keyword(Keyword::Not) => not_null(rest, end),
        TokenKind::Keyword(Keyword::Unique) => Ok((ColumnConstraint::Unique, rest)),
        TokenKind::Keyword(Keyword::Check) => {
            let rest = body(rest, end)?;
            Ok((ColumnConstraint::Check, rest))
        }
        TokenKind::Keyword(Keyword::Default) => {
            let (value, rest) = default_value(alloc, rest, end)?;
            Ok((ColumnConstraint::Default(value), rest))
        }
        TokenKind::Keyword(Keyword::Collate) => {
            let (collation, rest) = name(alloc, rest, end)?;
            Ok((ColumnConstraint::Collate(collation), rest))
        }
        TokenKind::Keyword(Keyword::References) => {
            let rest = after_reference(alloc, rest, end)?;
            Ok((ColumnConstraint::References, rest))
        }
        _ => Err(syntax_at(tokens, end)),
    }
}

/// The constraint at the front, and what is behind it.
pub(crate) fn constraint<'t>(
    alloc: Global,
    tokens: &'t [Token<'t>],
    end: usize,
) -> Result<(ColumnConstraint, &'t [Token<'t>]), Fault>
    ensures value { HasFound (λ r. (constraint_of r.0, lexemes_of r.1.now)) result
        (spec.constraint (lexemes_of tokens.now)) }
    ensures shorter { IfOk result (λ r. length r.1.now < length tokens.now) }
{
    let rest = after_title(tokens, end)?;
    demand(alloc, rest, end)
}
