//! Lists of expressions, and expressions that may be absent.
ghost use Rattle.std.specs.Prelude.{◌≤◌, IfOk};
ghost use Rattle.sql_reader_exprs.specs.clause_reader.Seen.{seen};
ghost use Rattle.sql_reader_exprs.specs.window_reader.Setting.{at};
ghost use Rattle.sql_reader_exprs.specs.window_reader.Views.{exprs_of, numbers_of, present_of};
ghost use Rattle.sql_reader_grammar.specs.Reading as spec;
ghost use Rattle.sql_reader_grammar.specs.phrases.Outcomes.{Yields};
ghost use Rattle.sql_reader_grammar.specs.phrases.Texts.{lexemes_of};
ghost use Rattle.std.specs.Prelude.{◌≡◌};
ghost use Rattle.sql_reader_grammar.specs.statement_trees.TreeView.{expr_of};

use crate::clause_reader::Read;
use crate::lookahead::{OR_LEVEL, alone};
use crate::window_reader::Inner;
use sql_reader_grammar::{Expr, after_sign};
use sql_reader_syntax::Function;
use sql_reader_tokens::{Sign, Token};
use values::Fault;

/// An expression that is there.
pub fn present<'t, I: Inner<'t>>(
    inner: &I,
    tokens: &'t [Token<'t>],
) -> Result<Read<'t, Option<Expr>>, Fault>
    requires { I.reads inner.now }
    ensures value { Yields (seen present_of) result (at spec.present (I.setting inner.now) (lexemes_of tokens.now)) }
    ensures within { IfOk result (λ r. r.levels ≤ (I.setting inner.now).depth) }
{
    let read = inner.expr(OR_LEVEL, tokens)?;
    Ok(Read {
        tree: Some(read.tree),
        levels: read.levels,
        rest: read.rest,
    })
}

/// Whether the argument at this place is a number alone; outside a call none is.
fn is_number_at(function: Option<Function>, place: usize) -> bool
    ensures { result ≡ numbers_of function place }
{
    match function {
        Some(function) => function.takes_number(place),
        None => false,
    }
}

/// An expression, or a number alone.
fn item<'t, I: Inner<'t>>(
    inner: &I,
    number: bool,
    tokens: &'t [Token<'t>],
) -> Result<Read<'t, Expr>, Fault>
    requires { I.reads inner.now }
    ensures value { Yields (seen expr_of) result (at spec.item (I.setting inner.now) number (lexemes_of tokens.now)) }
    ensures within { IfOk result (λ r. r.levels ≤ (I.setting inner.now).depth) }
{
    if number {
        return inner.expr(OR_LEVEL, alone(tokens, inner.end())?);
    }
    inner.expr(OR_LEVEL, tokens)
}

/// One item or more, with commas between: the arguments of a function, or the members of a list.
#[tactic(auto, using(sql_reader_grammar::proofs::lemmas::phrases::TurnLemmas::series_end))]
pub fn list<'t, I: Inner<'t>>(
    inner: &I,
    function: Option<Function>,
    tokens: &'t [Token<'t>],
) -> Result<Read<'t, Vec<Expr>>, Fault>
    requires { I.reads inner.now }
    ensures value { Yields (seen exprs_of) result
        (at spec.list (I.setting inner.now) (numbers_of function) (lexemes_of tokens.now)) }
    ensures within { IfOk result (λ r. r.levels ≤ (I.setting inner.now).depth) }
{
    let mut trees = Vec::new(inner.alloc());
    let first = item(inner, is_number_at(function, 0), tokens)?;
    trees.push(first.tree)?;
    let mut levels = first.levels;
    let mut rest = first.rest;
    while let Some(start) = after_sign(rest, Sign::Comma) {
        let number = is_number_at(function, trees.len());
        let next = item(inner, number, start)?;
        trees.push(next.tree)?;
        levels = levels.max(next.levels);
        rest = next.rest;
    }
    Ok(Read {
        tree: trees,
        levels,
        rest,
    })
}
