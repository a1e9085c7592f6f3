//! The options after the columns of a table.
ghost use Rattle.std.specs.Prelude.{◌<◌, IfOk, length};
ghost use Rattle.sql_reader_creates.specs.CreateReading as spec;
ghost use Rattle.sql_reader_grammar.specs.phrases.Steps.{HasFound};
ghost use Rattle.sql_reader_grammar.specs.phrases.Texts.{lexemes_of};

use sql_reader_grammar::{TableOption, after_sign, after_word, syntax_at};
use sql_reader_tokens::{Sign, Token};
use std::alloc::Global;
use values::Fault;

/// The option at the front, and what is behind it.
fn table_option<'t>(
    tokens: &'t [Token<'t>],
    end: usize,
) -> Result<(TableOption, &'t [Token<'t>]), Fault>
    ensures value { HasFound (λ r. (r.0, lexemes_of r.1.now)) result (spec.table_option (lexemes_of tokens.now)) }
    ensures shorter { IfOk result (λ r. length r.1.now < length tokens.now) }
{
    let [first, rest @ ..] = tokens else {
        return Err(Fault::Syntax(end));
    };
    if first.kind.is_word("STRICT") {
        return Ok((TableOption::Strict, rest));
    }
    if !first.kind.is_word("WITHOUT") {
        return Err(Fault::Syntax(first.place));
    }
    match after_word(rest, "ROWID") {
        Some(after) => Ok((TableOption::WithoutRowid, after)),
        None => Err(syntax_at(rest, end)),
    }
}

/// The options, which are all of the tokens.
pub(crate) fn table_options(
    alloc: Global,
    tokens: &[Token<'_>],
    end: usize,
) -> Result<Vec<TableOption>, Fault>
    ensures { HasFound (λ r. r.items) result (spec.table_options (lexemes_of tokens.now)) }
{
    let mut options = Vec::new(alloc);
    if tokens.is_empty() {
        return Ok(options);
    }
    let (first, mut rest) = table_option(tokens, end)?;
    options.push(first)?;
    while let Some(more) = after_sign(rest, Sign::Comma) {
        let (next, after) = table_option(more, end)?;
        options.push(next)?;
        rest = after;
    }
    if !rest.is_empty() {
        return Err(syntax_at(rest, end));
    }
    Ok(options)
}
