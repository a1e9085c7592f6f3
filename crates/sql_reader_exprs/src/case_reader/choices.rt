//! CASE.
ghost use Rattle.std.specs.Prelude.{◌≤◌, IfOk};
ghost use Rattle.sql_reader_exprs.specs.clause_reader.Seen.{seen};
ghost use Rattle.sql_reader_exprs.specs.window_reader.Setting.{at};
ghost use Rattle.sql_reader_grammar.specs.Reading as spec;
ghost use Rattle.sql_reader_grammar.specs.phrases.Outcomes.{Yields};
ghost use Rattle.sql_reader_grammar.specs.phrases.Texts.{lexemes_of};
ghost use Rattle.sql_reader_exprs.specs.window_reader.Views.{arms_of_vec, present_of};
ghost use Rattle.sql_reader_grammar.specs.phrases.Steps as steps;
ghost use Rattle.sql_reader_grammar.specs.statement_trees.TreeView.{arm_of, expr_of};
ghost use Rattle.sql_reader_tokens.specs.declared.keywords.keyword.Keyword.TheVariants as k;

use crate::case_reader::trees::{case, when_then};
use crate::clause_reader::Read;
use crate::lookahead::OR_LEVEL;
use crate::window_reader::{Inner, present};
use sql_reader_grammar::{Arm, Expr, after_keyword, needed};
use sql_reader_tokens::{Keyword, Token};
use values::Fault;

/// What stands behind a WHEN, with its THEN.
fn arm<'t, I: Inner<'t>>(inner: &I, tokens: &'t [Token<'t>]) -> Result<Read<'t, Arm>, Fault>
    requires { I.reads inner.now }
    ensures value { Yields (seen arm_of) result
        (at spec.arm (I.setting inner.now) (lexemes_of tokens.now)) }
    ensures within { IfOk result (λ r. r.levels ≤ (I.setting inner.now).depth) }
{
    let when = inner.expr(OR_LEVEL, tokens)?;
    let rest = needed(
        after_keyword(when.rest, Keyword::Then),
        when.rest,
        inner.end(),
    )?;
    let then = inner.expr(OR_LEVEL, rest)?;
    Ok(Read {
        tree: when_then(when.tree, then.tree),
        levels: when.levels.max(then.levels),
        rest: then.rest,
    })
}

/// The arms of a CASE, behind the first WHEN.
#[tactic(auto, using(sql_reader_grammar::proofs::lemmas::phrases::TurnLemmas::series_end))]
fn arms<'t, I: Inner<'t>>(inner: &I, tokens: &'t [Token<'t>]) -> Result<Read<'t, Vec<Arm>>, Fault>
    requires { I.reads inner.now }
    ensures value { Yields (seen arms_of_vec) result
        (at spec.arms (I.setting inner.now) (lexemes_of tokens.now)) }
    ensures within { IfOk result (λ r. r.levels ≤ (I.setting inner.now).depth) }
{
    let mut trees = Vec::new(inner.alloc());
    let first = arm(inner, tokens)?;
    trees.push(first.tree)?;
    let mut levels = first.levels;
    let mut rest = first.rest;
    while let Some(start) = after_keyword(rest, Keyword::When) {
        let next = arm(inner, start)?;
        trees.push(next.tree)?;
        levels = levels.max(next.levels);
        rest = next.rest;
    }
    Ok(Read {
        tree: trees,
        levels,
        rest,
    })
}

/// The operand of a CASE, if it has one.
fn case_operand<'t, I: Inner<'t>>(
    inner: &I,
    tokens: &'t [Token<'t>],
) -> Result<Read<'t, Option<Expr>>, Fault>
    requires { I.reads inner.now }
    ensures value { Yields (seen present_of) result
        (at spec.operand_of_case (I.setting inner.now) (lexemes_of tokens.now)
        (steps.after_keyword k.When (lexemes_of tokens.now))) }
    ensures within { IfOk result (λ r. r.levels ≤ (I.setting inner.now).depth) }
{
    if after_keyword(tokens, Keyword::When).is_some() {
        return Ok(Read {
            tree: None,
            levels: 0,
            rest: tokens,
        });
    }
    let read = present(inner, tokens)?;
    Ok(read)
}

/// What stands behind ELSE, if it is there.
fn otherwise<'t, I: Inner<'t>>(
    inner: &I,
    tokens: &'t [Token<'t>],
) -> Result<Read<'t, Option<Expr>>, Fault>
    requires { I.reads inner.now }
    ensures value { Yields (seen present_of) result
        (at spec.otherwise (I.setting inner.now) (lexemes_of tokens.now)) }
    ensures within { IfOk result (λ r. r.levels ≤ (I.setting inner.now).depth) }
{
    let Some(rest) = after_keyword(tokens, Keyword::Else) else {
        return Ok(Read {
            tree: None,
            levels: 0,
            rest: tokens,
        });
    };
    let read = present(inner, rest)?;
    Ok(read)
}

/// A CASE, behind that word.
#[tactic(auto, unfolding(sql_reader_grammar::specs::Reading::choice))]
pub fn choice<'t, I: Inner<'t>>(inner: &I, tokens: &'t [Token<'t>]) -> Result<Read<'t, Expr>, Fault>
    requires { I.reads inner.now }
    ensures value { Yields (seen expr_of) result
        (at spec.choice (I.setting inner.now) (lexemes_of tokens.now)) }
    ensures within { IfOk result (λ r. r.levels ≤ (I.setting inner.now).depth) }
{
    let operand = case_operand(inner, tokens)?;
    let whens = needed(
        after_keyword(operand.rest, Keyword::When),
        operand.rest,
        inner.end(),
    )?;
    let arms = arms(inner, whens)?;
    let other = otherwise(inner, arms.rest)?;
    let rest = needed(
        after_keyword(other.rest, Keyword::End),
        other.rest,
        inner.end(),
    )?;
    Ok(Read {
        tree: case(inner.alloc(), operand.tree, arms.tree, other.tree)?,
        levels: operand.levels.max(arms.levels.max(other.levels)),
        rest,
    })
}
