//! How rows are ordered, and the frames of windows.
ghost use Rattle.std.specs.Prelude.{◌∷◌, ◌≡◌, ◌≤◌, Ok, IfOk};
ghost use Rattle.sql_reader_tokens.specs.Lexeme.{Lexeme};
ghost use Rattle.sql_reader_exprs.specs.clause_reader.Seen.{edges_of, same, seen};
ghost use Rattle.sql_reader_grammar.specs.Reading as spec;
ghost use Rattle.sql_reader_grammar.specs.phrases.Outcomes.{Yields};
ghost use Rattle.sql_reader_grammar.specs.phrases.Texts.{lexemes_of};

use crate::clause_reader::Read;
use crate::lookahead::{exclusion_at, nulls_at, turn_at, unit_at};
use sql_reader_grammar::{after_keyword, needed, syntax_at};
use sql_reader_syntax::{Direction, Edge, Frame};
use sql_reader_tokens::{Keyword, Token, TokenKind};
use values::Fault;

/// How an expression of ORDER BY sorts.
pub fn direction<'t>(tokens: &'t [Token<'t>]) -> Read<'t, Direction>
    ensures { spec.direction (lexemes_of tokens.now) ≡ Ok (seen same result) }
{
    let (descending, rest) = turn_at(tokens);
    let (nulls_first, rest) = nulls_at(descending, rest);
    Read {
        tree: Direction {
            descending,
            nulls_first,
        },
        levels: 0,
        rest,
    }
}

/// A token that is this reserved word.
macro_rules! word {
    ($word:ident) => {
        Token {
            kind: TokenKind::Keyword(Keyword::$word),
            ..
        }
    };
}

/// Where a frame begins or ends, behind a number.
fn distance<'t>(number: i64, tokens: &'t [Token<'t>], end: usize) -> Result<Read<'t, Edge>, Fault>
    ensures value { Yields (seen same) result (spec.edge (Lexeme.Number number ∷ lexemes_of tokens.now)) }
    ensures within { IfOk result (λ r. r.levels ≤ 0) }
{
    let (tree, rest) = match tokens {
        [word!(Preceding), rest @ ..] => (Edge::Preceding(number), rest),
        [word!(Following), rest @ ..] => (Edge::Following(number), rest),
        _ => return Err(syntax_at(tokens, end)),
    };
    Ok(Read {
        tree,
        levels: 0,
        rest,
    })
}

/// Where a frame begins or ends.
fn edge<'t>(tokens: &'t [Token<'t>], end: usize) -> Result<Read<'t, Edge>, Fault>
    ensures value { Yields (seen same) result (spec.edge (lexemes_of tokens.now)) }
    ensures within { IfOk result (λ r. r.levels ≤ 0) }
{
    let [first, rest @ ..] = tokens else {
        return Err(syntax_at(tokens, end));
    };
    if let TokenKind::Number(number) = first.kind {
        return distance(number, rest, end);
    }
    let (tree, rest) = match tokens {
        [word!(Unbounded), word!(Preceding), rest @ ..] => (Edge::UnboundedPreceding, rest),
        [word!(Unbounded), word!(Following), rest @ ..] => (Edge::UnboundedFollowing, rest),
        [word!(Current), word!(Row), rest @ ..] => (Edge::CurrentRow, rest),
        _ => return Err(syntax_at(tokens, end)),
    };
    Ok(Read {
        tree,
        levels: 0,
        rest,
    })
}

/// Where a frame begins, and where it ends: at the current row, unless BETWEEN is written.
fn edges<'t>(tokens: &'t [Token<'t>], end: usize) -> Result<Read<'t, (Edge, Edge)>, Fault>
    ensures value { Yields (seen edges_of) result (spec.edges (lexemes_of tokens.now)) }
    ensures within { IfOk result (λ r. r.levels ≤ 0) }
{
    let Some(rest) = after_keyword(tokens, Keyword::Between) else {
        let start = edge(tokens, end)?;
        return Ok(Read {
            tree: (start.tree, Edge::CurrentRow),
            levels: start.levels,
            rest: start.rest,
        });
    };
    let start = edge(rest, end)?;
    let rest = needed(after_keyword(start.rest, Keyword::And), start.rest, end)?;
    let last = edge(rest, end)?;
    Ok(Read {
        tree: (start.tree, last.tree),
        levels: start.levels.max(last.levels),
        rest: last.rest,
    })
}

/// The frame of a window, if one is written.
pub fn frame<'t>(tokens: &'t [Token<'t>], end: usize) -> Result<Read<'t, Option<Frame>>, Fault>
    ensures value { Yields (seen same) result (spec.frame (lexemes_of tokens.now)) }
    ensures within { IfOk result (λ r. r.levels ≤ 0) }
{
    let Some((unit, rest)) = unit_at(tokens) else {
        return Ok(Read {
            tree: None,
            levels: 0,
            rest: tokens,
        });
    };
    let edges = edges(rest, end)?;
    let (start, last) = edges.tree;
    let (exclusion, rest) = exclusion_at(edges.rest);
    Ok(Read {
        tree: Some(Frame {
            unit,
            start,
            end: last,
            exclusion,
        }),
        levels: edges.levels,
        rest,
    })
}
