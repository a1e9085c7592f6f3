//! The columns of keys.
ghost use Rattle.std.specs.Prelude.{◌<◌, ◌≤◌, IfOk, length, map, option_map, string_bytes};
ghost use Rattle.sql_reader_creates.specs.CreateReading as spec;
ghost use Rattle.sql_reader_grammar.specs.phrases.Steps as steps;
ghost use Rattle.sql_reader_grammar.specs.phrases.Steps.{HasFound};
ghost use Rattle.sql_reader_grammar.specs.phrases.Texts.{lexemes_of};
ghost use Rattle.sql_reader_grammar.specs.create_trees.CreateView.{indexed_of};

use crate::column_reader::key_order;
use sql_reader_grammar::{IndexedColumn, after_keyword, after_sign, name, syntax_at};
use sql_reader_tokens::{Keyword, Sign, Token};
use std::alloc::Global;
use values::Fault;

/// The collation, if one stands at the front, and what is behind it.
fn collation<'t>(
    alloc: Global,
    tokens: &'t [Token<'t>],
    end: usize,
) -> Result<(Option<String>, &'t [Token<'t>]), Fault>
    ensures value { HasFound (λ r. (option_map (λ n. string_bytes n) r.0, lexemes_of r.1.now)) result
        (spec.collation (lexemes_of tokens.now)) }
    ensures no_longer { IfOk result (λ r. length r.1.now ≤ length tokens.now) }
{
    let Some(words) = after_keyword(tokens, Keyword::Collate) else {
        return Ok((None, tokens));
    };
    let (collation, rest) = name(alloc, words, end)?;
    Ok((Some(collation), rest))
}

/// The column of a key at the front, and what is behind it.
fn indexed_column<'t>(
    alloc: Global,
    tokens: &'t [Token<'t>],
    end: usize,
) -> Result<(IndexedColumn, &'t [Token<'t>]), Fault>
    ensures value { HasFound (λ r. (indexed_of r.0, lexemes_of r.1.now)) result (spec.indexed (lexemes_of tokens.now)) }
    ensures shorter { IfOk result (λ r. length r.1.now < length tokens.now) }
{
    let (name, rest) = name(alloc, tokens, end)?;
    let (collation, rest) = collation(alloc, rest, end)?;
    let (order, rest) = key_order(rest);
    let column = IndexedColumn {
        name,
        collation,
        order,
    };
    Ok((column, rest))
}

/// The columns of a key with commas between them, and what is behind them.
fn indexed_list<'t>(
    alloc: Global,
    tokens: &'t [Token<'t>],
    end: usize,
) -> Result<(Vec<IndexedColumn>, &'t [Token<'t>]), Fault>
    ensures value { HasFound (λ r. (map indexed_of r.0.items, lexemes_of r.1.now)) result
        (steps.listed spec.indexed (lexemes_of tokens.now)) }
    ensures shorter { IfOk result (λ r. length r.1.now < length tokens.now) }
{
    let mut columns = Vec::new(alloc);
    let (first, mut rest) = indexed_column(alloc, tokens, end)?;
    columns.push(first)?;
    while let Some(more) = after_sign(rest, Sign::Comma) {
        let (next, after) = indexed_column(alloc, more, end)?;
        columns.push(next)?;
        rest = after;
    }
    Ok((columns, rest))
}

/// The columns of a key in parentheses, and what is behind them.
pub(crate) fn indexed_columns<'t>(
    alloc: Global,
    tokens: &'t [Token<'t>],
    end: usize,
) -> Result<(Vec<IndexedColumn>, &'t [Token<'t>]), Fault>
    ensures value { HasFound (λ r. (map indexed_of r.0.items, lexemes_of r.1.now)) result
        (spec.indexed_all (lexemes_of tokens.now)) }
    ensures shorter { IfOk result (λ r. length r.1.now < length tokens.now) }
{
    let Some(inside) = after_sign(tokens, Sign::Open) else {
        return Err(syntax_at(tokens, end));
    };
    let (columns, rest) = indexed_list(alloc, inside, end)?;
    match after_sign(rest, Sign::Close) {
        Some(after) => Ok((columns, after)),
        None => Err(syntax_at(rest, end)),
    }
}
