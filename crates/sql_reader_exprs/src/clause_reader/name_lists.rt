//! Names, and lists of them.
ghost use Rattle.std.specs.Prelude.{◌<◌, ◌≤◌, length, option_map, IfOk};
ghost use Rattle.sql_reader_exprs.specs.clause_reader.Seen.{bytes_of, names_of, seen};
ghost use Rattle.sql_reader_grammar.specs.Reading as spec;
ghost use Rattle.sql_reader_grammar.specs.phrases.Outcomes.{Yields};
ghost use Rattle.sql_reader_grammar.specs.phrases.Texts.{lexemes_of};

use crate::clause_reader::Read;
use sql_reader_grammar::{after_sign, needed, needed_name};
use sql_reader_tokens::{Keyword, Sign, Token, TokenKind, name_content};
use std::alloc::Global;
use values::Fault;

/// A name.
pub fn a_name<'t>(
    alloc: Global,
    tokens: &'t [Token<'t>],
    end: usize,
) -> Result<Read<'t, String>, Fault>
    ensures value { Yields (seen bytes_of) result (spec.a_name (lexemes_of tokens.now)) }
    ensures within { IfOk result (λ r. r.levels ≤ 0) }
    ensures shorter { IfOk result (λ r. length r.rest.now < length tokens.now) }
{
    let (tree, rest) = needed_name(alloc, tokens, end)?;
    Ok(Read {
        tree,
        levels: 0,
        rest,
    })
}

/// One name or more, with commas between them.
#[tactic(auto, using(sql_reader_grammar::proofs::lemmas::phrases::TurnLemmas::series_end))]
pub fn names<'t>(
    alloc: Global,
    tokens: &'t [Token<'t>],
    end: usize,
) -> Result<Read<'t, Vec<String>>, Fault>
    ensures value { Yields (seen names_of) result (spec.names (lexemes_of tokens.now)) }
    ensures within { IfOk result (λ r. r.levels ≤ 0) }
{
    let mut names = Vec::new(alloc);
    let first = a_name(alloc, tokens, end)?;
    names.push(first.tree)?;
    let mut levels = first.levels;
    let mut rest = first.rest;
    while let Some(start) = after_sign(rest, Sign::Comma) {
        let next = a_name(alloc, start, end)?;
        names.push(next.tree)?;
        levels = levels.max(next.levels);
        rest = next.rest;
    }
    Ok(Read {
        tree: names,
        levels,
        rest,
    })
}

/// The names of columns in a parenthesis, or none where there is none.
pub fn columns<'t>(
    alloc: Global,
    tokens: &'t [Token<'t>],
    end: usize,
) -> Result<Read<'t, Vec<String>>, Fault>
    ensures value { Yields (seen names_of) result (spec.columns (lexemes_of tokens.now)) }
    ensures within { IfOk result (λ r. r.levels ≤ 0) }
{
    let Some(rest) = after_sign(tokens, Sign::Open) else {
        return Ok(Read {
            tree: Vec::new(alloc),
            levels: 0,
            rest: tokens,
        });
    };
    let names = names(alloc, rest, end)?;
    let rest = needed(after_sign(names.rest, Sign::Close), names.rest, end)?;
    Ok(Read { rest, ..names })
}

/// The alias of a source, if it has one.
pub fn alias<'t>(
    alloc: Global,
    tokens: &'t [Token<'t>],
    end: usize,
) -> Result<Read<'t, Option<String>>, Fault>
    ensures value { Yields (seen (option_map bytes_of)) result (spec.alias (lexemes_of tokens.now)) }
    ensures within { IfOk result (λ r. r.levels ≤ 0) }
{
    let [first, rest @ ..] = tokens else {
        return Ok(Read {
            tree: None,
            levels: 0,
            rest: tokens,
        });
    };
    match first.kind {
        TokenKind::Keyword(Keyword::As) => {
            let name = a_name(alloc, rest, end)?;
            Ok(Read {
                tree: Some(name.tree),
                levels: name.levels,
                rest: name.rest,
            })
        }
        TokenKind::Name(quoting, inside) => Ok(Read {
            tree: Some(name_content(alloc, quoting, inside)?),
            levels: 0,
            rest,
        }),
        _ => Ok(Read {
            tree: None,
            levels: 0,
            rest: tokens,
        }),
    }
}
