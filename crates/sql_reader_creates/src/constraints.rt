//! Constraints of tables.
ghost use Rattle.std.specs.Prelude.{◌<◌, IfOk, length};
ghost use Rattle.sql_reader_creates.specs.CreateReading as spec;
ghost use Rattle.sql_reader_grammar.specs.phrases.Steps.{HasFound};
ghost use Rattle.sql_reader_grammar.specs.phrases.Texts.{lexemes_of};
ghost use Rattle.sql_reader_grammar.specs.create_trees.CreateView.{table_constraint_of};

use crate::column_reader::{after_reference, after_title, body, names};
use crate::keys::indexed_columns;
use sql_reader_grammar::{TableConstraint, after_keyword, after_sign, after_word, syntax_at};
use sql_reader_tokens::{Keyword, Sign, Token, TokenKind};
use std::alloc::Global;
use values::Fault;

/// The key whose PRIMARY stands before these tokens, and what is behind it.
fn primary_key<'t>(
    alloc: Global,
    tokens: &'t [Token<'t>],
    end: usize,
) -> Result<(TableConstraint, &'t [Token<'t>]), Fault>
    ensures value { HasFound (λ r. (table_constraint_of r.0, lexemes_of r.1.now)) result
        (spec.primary_key (lexemes_of tokens.now)) }
    ensures shorter { IfOk result (λ r. length r.1.now < length tokens.now) }
{
    let Some(rest) = after_word(tokens, "KEY") else {
        return Err(syntax_at(tokens, end));
    };
    let (columns, rest) = indexed_columns(alloc, rest, end)?;
    Ok((TableConstraint::PrimaryKey(columns), rest))
}

/// The key whose FOREIGN stands before these tokens, and what is behind it.
fn foreign_key<'t>(
    alloc: Global,
    tokens: &'t [Token<'t>],
    end: usize,
) -> Result<(TableConstraint, &'t [Token<'t>]), Fault>
    ensures value { HasFound (λ r. (table_constraint_of r.0, lexemes_of r.1.now)) result
        (spec.foreign_key (lexemes_of tokens.now)) }
    ensures shorter { IfOk result (λ r. length r.1.now < length tokens.now) }
{
    let Some(rest) = after_word(tokens, "KEY") else {
        return Err(syntax_at(tokens, end));
    };
    let Some(inside) = after_sign(rest, Sign::Open) else {
        return Err(syntax_at(rest, end));
    };
    let (columns, rest) = names(alloc, inside, end)?;
    let Some(reference) = after_keyword(rest, Keyword::References) else {
        return Err(syntax_at(rest, end));
    };
    let rest = after_reference(alloc, reference, end)?;
    Ok((TableConstraint::ForeignKey(columns), rest))
}

/// What a constraint without its own name demands, and what is behind it.
fn demand<'t>(
    alloc: Global,
    tokens: &'t [Token<'t>],
    end: usize,
) -> Result<(TableConstraint, &'t [Token<'t>]), Fault>
    ensures value { HasFound (λ r. (table_constraint_of r.0, lexemes_of r.1.now)) result
        (spec.demand (lexemes_of tokens.now)) }
    ensures shorter { IfOk result (λ r. length r.1.now < length tokens.now) }
{
    let [first, rest @ ..] = tokens else {
        return Err(Fault::Syntax(end));
    };
    match first.kind {
        TokenKind::Keyword(Keyword::Primary) => primary_key(alloc, rest, end),
        TokenKind::Keyword(Keyword::Unique) => {
            let (columns, rest) = indexed_columns(alloc, rest, end)?;
            Ok((TableConstraint::Unique(columns), rest))
        }
        TokenKind::Keyword(Keyword::Check) => {
            let rest = body(rest, end)?;
            Ok((TableConstraint::Check, rest))
        }
        TokenKind::Keyword(Keyword::Foreign) => foreign_key(alloc, rest, end),
        _ => Err(syntax_at(tokens, end)),
    }
}

/// The constraint at the front, and what is behind it.
pub(crate) fn constraint<'t>(
    alloc: Global,
    tokens: &'t [Token<'t>],
    end: usize,
) -> Result<(TableConstraint, &'t [Token<'t>]), Fault>
    ensures value { HasFound (λ r. (table_constraint_of r.0, lexemes_of r.1.now)) result
        (spec.constraint (lexemes_of tokens.now)) }
    ensures shorter { IfOk result (λ r. length r.1.now < length tokens.now) }
{
    let rest = after_title(tokens, end)?;
    demand(alloc, rest, end)
}
