//! The clauses of a SELECT after its sources.
ghost use Rattle.std.specs.Prelude.{◌≤◌, IfOk};
ghost use Rattle.sql_reader_exprs.specs.clause_reader.Seen.{seen};
ghost use Rattle.sql_reader_grammar.specs.Reading as spec;
ghost use Rattle.sql_reader_grammar.specs.phrases.Outcomes.{Yields};
ghost use Rattle.sql_reader_grammar.specs.phrases.Texts.{lexemes_of};
ghost use Rattle.sql_reader_exprs.specs.window_reader.Setting.{at};
ghost use Rattle.sql_reader.specs.query_reader.Views.{definition_list_of, definitions_of_vec, groups_of};
ghost use Rattle.sql_reader_grammar.specs.statement_trees.TreeView.{definition_of};
ghost use Rattle.sql_reader_exprs.specs.window_reader.Views.{present_of};

use crate::query_reader::trees::defined;
use sql_reader_exprs::{Inner, Read, a_name, after_group_by, list, present, window};
use sql_reader_grammar::{Expr, NamedWindow, after_keyword, after_sign, needed};
use sql_reader_tokens::{Keyword, Sign, Token};
use values::Fault;

/// What stands behind WHERE, if that is written.
pub(crate) fn condition<'t, I: Inner<'t>>(
    inner: &I,
    tokens: &'t [Token<'t>],
) -> Result<Read<'t, Option<Expr>>, Fault>
    requires { I.reads inner.now }
    ensures value { Yields (seen present_of) result
        (at spec.condition (I.setting inner.now) (lexemes_of tokens.now)) }
    ensures within { IfOk result (λ r. r.levels ≤ (I.setting inner.now).depth) }
{
    let Some(rest) = after_keyword(tokens, Keyword::Where) else {
        return Ok(Read {
            tree: None,
            levels: 0,
            rest: tokens,
        });
    };
    let read = present(inner, rest)?;
    Ok(read)
}

/// What stands behind HAVING, if that is written.
fn having<'t, I: Inner<'t>>(
    inner: &I,
    tokens: &'t [Token<'t>],
) -> Result<Read<'t, Option<Expr>>, Fault>
    requires { I.reads inner.now }
    ensures value { Yields (seen present_of) result
        (at spec.having (I.setting inner.now) (lexemes_of tokens.now)) }
    ensures within { IfOk result (λ r. r.levels ≤ (I.setting inner.now).depth) }
{
    let Some(rest) = after_keyword(tokens, Keyword::Having) else {
        return Ok(Read {
            tree: None,
            levels: 0,
            rest: tokens,
        });
    };
    let read = present(inner, rest)?;
    Ok(read)
}

/// What stands behind GROUP BY, and behind HAVING, if they are written.
pub(crate) fn groups<'t, I: Inner<'t>>(
    inner: &I,
    tokens: &'t [Token<'t>],
) -> Result<Read<'t, (Vec<Expr>, Option<Expr>)>, Fault>
    requires { I.reads inner.now }
    ensures value { Yields (seen groups_of) result
        (at spec.groups (I.setting inner.now) (lexemes_of tokens.now)) }
    ensures within { IfOk result (λ r. r.levels ≤ (I.setting inner.now).depth) }
{
    let Some(rest) = after_group_by(tokens) else {
        return Ok(Read {
            tree: (Vec::new(inner.alloc()), None),
            levels: 0,
            rest: tokens,
        });
    };
    let keys = list(inner, None, rest)?;
    let having = having(inner, keys.rest)?;
    Ok(Read {
        tree: (keys.tree, having.tree),
        levels: keys.levels.max(having.levels),
        rest: having.rest,
    })
}

/// A window that is named.
fn definition<'t, I: Inner<'t>>(
    inner: &I,
    tokens: &'t [Token<'t>],
) -> Result<Read<'t, NamedWindow>, Fault>
    requires { I.reads inner.now }
    ensures value { Yields (seen definition_of) result
        (at spec.definition (I.setting inner.now) (lexemes_of tokens.now)) }
    ensures within { IfOk result (λ r. r.levels ≤ (I.setting inner.now).depth) }
{
    let end = inner.end();
    let name = a_name(inner.alloc(), tokens, end)?;
    let rest = needed(after_keyword(name.rest, Keyword::As), name.rest, end)?;
    let window = window(inner, rest)?;
    Ok(Read {
        tree: defined(name.tree, window.tree),
        levels: name.levels.max(window.levels),
        rest: window.rest,
    })
}

/// One such window or more, with commas between them.
#[tactic(auto, using(sql_reader_grammar::proofs::lemmas::phrases::TurnLemmas::series_end))]
fn definition_list<'t, I: Inner<'t>>(
    inner: &I,
    tokens: &'t [Token<'t>],
) -> Result<Read<'t, Vec<NamedWindow>>, Fault>
    requires { I.reads inner.now }
    ensures value { Yields (seen definition_list_of) result
        (spec.all (λ place. at spec.definition (I.setting inner.now)) (lexemes_of tokens.now)) }
    ensures within { IfOk result (λ r. r.levels ≤ (I.setting inner.now).depth) }
{
    let mut trees = Vec::new(inner.alloc());
    let first = definition(inner, tokens)?;
    trees.push(first.tree)?;
    let mut levels = first.levels;
    let mut rest = first.rest;
    while let Some(start) = after_sign(rest, Sign::Comma) {
        let next = definition(inner, start)?;
        trees.push(next.tree)?;
        levels = levels.max(next.levels);
        rest = next.rest;
    }
    Ok(Read {
        tree: trees,
        levels,
        rest,
    })
}

/// What stands behind WINDOW, if that is written.
pub(crate) fn windows<'t, I: Inner<'t>>(
    inner: &I,
    tokens: &'t [Token<'t>],
) -> Result<Read<'t, Vec<NamedWindow>>, Fault>
    requires { I.reads inner.now }
    ensures value { Yields (seen definitions_of_vec) result
        (at spec.windows (I.setting inner.now) (lexemes_of tokens.now)) }
    ensures within { IfOk result (λ r. r.levels ≤ (I.setting inner.now).depth) }
{
    let Some(rest) = after_keyword(tokens, Keyword::Window) else {
        return Ok(Read {
            tree: Vec::new(inner.alloc()),
            levels: 0,
            rest: tokens,
        });
    };
    let read = definition_list(inner, rest)?;
    Ok(read)
}
