//! CREATE texts.
ghost use Rattle.std.specs.Prelude.{◌≡◌, ◌<◌, Err, IfErr, IfOk, length, string_bytes};
ghost use Rattle.sql_reader_creates.specs.CreateGrammar.{SpellsCreate};
ghost use Rattle.sql_reader_creates.specs.CreateReading as spec;
ghost use Rattle.sql_reader_grammar.specs.phrases.Steps.{HasFound};
ghost use Rattle.sql_reader_grammar.specs.phrases.Texts.{IsRefusedText, AreWithinLimits, lexemes_of, max_text};
ghost use Rattle.sql_reader_grammar.specs.create_trees.CreateTrees.{columns_of_table};
ghost use Rattle.sql_reader_grammar.specs.create_trees.CreateView.{table_of};

use crate::definitions::definitions;
use crate::options::table_options;
use sql_reader_grammar::{
    CreateTable, MAX_COLUMNS, MAX_TEXT, TableOption, after_keyword, after_sign, name, syntax_at,
};
use sql_reader_tokens::{Grammar, Keyword, Sign, Token, read_tokens};
use std::alloc::Global;
use values::Fault;

/// The name of the table, and what is behind the parenthesis that opens its columns.
fn heading<'t>(
    alloc: Global,
    tokens: &'t [Token<'t>],
    end: usize,
) -> Result<(String, &'t [Token<'t>]), Fault>
    ensures { HasFound (λ r. (string_bytes r.0, lexemes_of r.1.now)) result (spec.heading (lexemes_of tokens.now)) }
{
    let Some(rest) = after_keyword(tokens, Keyword::Create) else {
        return Err(syntax_at(tokens, end));
    };
    let Some(source) = after_keyword(rest, Keyword::Table) else {
        return Err(syntax_at(rest, end));
    };
    let (name, rest) = name(alloc, source, end)?;
    let Some(inside) = after_sign(rest, Sign::Open) else {
        return Err(syntax_at(rest, end));
    };
    Ok((name, inside))
}

/// The end of a table, with its options, behind which nothing stands.
fn closing(alloc: Global, tokens: &[Token<'_>], end: usize) -> Result<Vec<TableOption>, Fault>
    ensures { HasFound (λ r. r.items) result (spec.closing (lexemes_of tokens.now)) }
{
    let Some(options) = after_sign(tokens, Sign::Close) else {
        return Err(syntax_at(tokens, end));
    };
    table_options(alloc, options, end)
}

/// A table, which is all of the tokens.
fn table(alloc: Global, tokens: &[Token<'_>], end: usize) -> Result<CreateTable, Fault>
    ensures { HasFound table_of result (spec.create (lexemes_of tokens.now)) }
{
    let (name, inside) = heading(alloc, tokens, end)?;
    let (columns, constraints, rest) = definitions(alloc, inside, end)?;
    let options = closing(alloc, rest, end)?;
    Ok(CreateTable {
        name,
        columns,
        constraints,
        options,
    })
}

/// The CREATE TABLE that a text spells. (CREATE TABLE) The fault is `Syntax` where the text spells none, with the place
/// where it stops being tokens, or else of the first token that no CREATE TABLE goes on with; `Limit` where the text is
/// longer than 65,536 bytes or spells more than 100 columns; or `NoMemory`.
#[tactic(auto, using(crate::proofs::CreateTexts::create_spelt, crate::proofs::CreateTexts::create_refused, crate::proofs::CreateTexts::create_tokens_refused))]
pub fn read_create(alloc: Global, text: &str) -> Result<CreateTable, Fault>
    ensures spelt { IfOk result (λ table. SpellsCreate text.now (table_of table)) }
    ensures within { IfOk result (λ table. AreWithinLimits columns_of_table text.now (table_of table)) }
    ensures refused { IfErr result (λ fault. IsRefusedText SpellsCreate columns_of_table text.now fault) }
    ensures long { max_text < length text.now → result ≡ Err Fault.Limit }
{
    if text.len() > MAX_TEXT {
        return Err(Fault::Limit);
    }
    let tokens = read_tokens(alloc, Grammar::Create, text)?;
    let table = table(alloc, tokens.as_slice(), text.len())?;
    if table.columns.len() > MAX_COLUMNS {
        return Err(Fault::Limit);
    }
    Ok(table)
}
