//! The columns and the constraints of a table.
ghost use Rattle.std.specs.Prelude.{◌≡◌, ◌<◌, IfSome, length, map, option_map};
ghost use Rattle.sql_reader_creates.specs.CreateReading as spec;
ghost use Rattle.sql_reader_grammar.specs.phrases.Steps.{HasFound};
ghost use Rattle.sql_reader_grammar.specs.phrases.Texts.{lexemes_of};
ghost use Rattle.sql_reader_grammar.specs.create_trees.CreateView.{column_of, table_constraint_of};

use crate::column_reader::column;
use crate::constraints::constraint;
use sql_reader_grammar::{Column, TableConstraint, after_sign};
use sql_reader_tokens::{Sign, Token, TokenKind};
use std::alloc::Global;
use values::Fault;

/// A column behind a comma, if one begins there.
fn another_column<'t>(tokens: &'t [Token<'t>]) -> Option<&'t [Token<'t>]>
    ensures found { option_map (λ r. lexemes_of r.now) result ≡ spec.another_column (lexemes_of tokens.now) }
    ensures shorter { IfSome result (λ r. length r.now < length tokens.now) }
{
    let rest = after_sign(tokens, Sign::Comma)?;
    match rest {
        [
            Token {
                kind: TokenKind::Name(_, _),
                ..
            },
            ..
        ] => Some(rest),
        _ => None,
    }
}

/// Columns with commas between them, and what is behind them.
fn columns<'t>(
    alloc: Global,
    tokens: &'t [Token<'t>],
    end: usize,
) -> Result<(Vec<Column>, &'t [Token<'t>]), Fault>
    ensures { HasFound (λ r. (map column_of r.0.items, lexemes_of r.1.now)) result
        (spec.columns (lexemes_of tokens.now)) }
{
    let mut columns = Vec::new(alloc);
    let (first, mut rest) = column(alloc, tokens, end)?;
    columns.push(first)?;
    while let Some(more) = another_column(rest) {
        let (next, after) = column(alloc, more, end)?;
        columns.push(next)?;
        rest = after;
    }
    Ok((columns, rest))
}

/// Columns, and then constraints, with commas between them, and what is behind them.
pub(crate) fn definitions<'t>(
    alloc: Global,
    tokens: &'t [Token<'t>],
    end: usize,
) -> Result<(Vec<Column>, Vec<TableConstraint>, &'t [Token<'t>]), Fault>
    ensures { HasFound (λ r. (map column_of r.0.items, map table_constraint_of r.1.items, lexemes_of r.2.now)) result
        (spec.definitions (lexemes_of tokens.now)) }
{
    let (columns, mut rest) = columns(alloc, tokens, end)?;
    let mut constraints = Vec::new(alloc);
    while let Some(more) = after_sign(rest, Sign::Comma) {
        let (next, after) = constraint(alloc, more, end)?;
        constraints.push(next)?;
        rest = after;
    }
    Ok((columns, constraints, rest))
}
