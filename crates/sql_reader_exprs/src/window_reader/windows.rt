//! Windows, and what else follows a call.
ghost use Rattle.std.specs.Prelude.{◌≤◌, IfOk};
ghost use Rattle.sql_reader_exprs.specs.clause_reader.Seen.{seen};
ghost use Rattle.sql_reader_exprs.specs.window_reader.Setting.{at};
ghost use Rattle.sql_reader_grammar.specs.Reading as spec;
ghost use Rattle.sql_reader_grammar.specs.phrases.Outcomes.{Yields};
ghost use Rattle.sql_reader_grammar.specs.phrases.Texts.{lexemes_of};
ghost use Rattle.sql_reader_exprs.specs.window_reader.Views.{order_of, present_of, some_of, term_list_of};
ghost use Rattle.sql_reader_grammar.specs.statement_trees.TreeView.{behind_of, over_of, term_of, window_of};

use crate::clause_reader::{Read, direction, frame};
use crate::lookahead::{OR_LEVEL, after_order_by, after_partition_by};
use crate::window_reader::Inner;
use crate::window_reader::lists::{list, present};
use crate::window_reader::trees::{
    directed, over_name, over_nothing, over_window, standing, windowed,
};
use sql_reader_grammar::{
    CallSuffix, Expr, OrderingTerm, Over, Window, after_keyword, after_sign, needed,
};
use sql_reader_tokens::{Keyword, Sign, Token, TokenKind, name_content};
use values::Fault;

/// An expression of ORDER BY, and how it sorts.
fn term<'t, I: Inner<'t>>(
    inner: &I,
    tokens: &'t [Token<'t>],
) -> Result<Read<'t, OrderingTerm>, Fault>
    requires { I.reads inner.now }
    ensures value { Yields (seen term_of) result
        (at spec.term (I.setting inner.now) (lexemes_of tokens.now)) }
    ensures within { IfOk result (λ r. r.levels ≤ (I.setting inner.now).depth) }
{
    let value = inner.expr(OR_LEVEL, tokens)?;
    let way = direction(value.rest);
    Ok(Read {
        tree: directed(value.tree, way.tree),
        levels: value.levels.max(way.levels),
        rest: way.rest,
    })
}

/// One such expression or more, with commas between them.
#[tactic(auto, using(sql_reader_grammar::proofs::lemmas::phrases::TurnLemmas::series_end))]
fn term_list<'t, I: Inner<'t>>(
    inner: &I,
    tokens: &'t [Token<'t>],
) -> Result<Read<'t, Vec<OrderingTerm>>, Fault>
    requires { I.reads inner.now }
    ensures value { Yields (seen term_list_of) result
        (spec.all (λ place. at spec.term (I.setting inner.now)) (lexemes_of tokens.now)) }
    ensures within { IfOk result (λ r. r.levels ≤ (I.setting inner.now).depth) }
{
    let mut trees = Vec::new(inner.alloc());
    let first = term(inner, tokens)?;
    trees.push(first.tree)?;
    let mut levels = first.levels;
    let mut rest = first.rest;
    while let Some(start) = after_sign(rest, Sign::Comma) {
        let next = term(inner, start)?;
        trees.push(next.tree)?;
        levels = levels.max(next.levels);
        rest = next.rest;
    }
    Ok(Read {
        tree: trees,
        levels,
        rest,
    })
}

/// What stands behind ORDER BY, if that is written.
pub fn order<'t, I: Inner<'t>>(
    inner: &I,
    tokens: &'t [Token<'t>],
) -> Result<Read<'t, Vec<OrderingTerm>>, Fault>
    requires { I.reads inner.now }
    ensures value { Yields (seen order_of) result
        (at spec.order (I.setting inner.now) (lexemes_of tokens.now)) }
    ensures within { IfOk result (λ r. r.levels ≤ (I.setting inner.now).depth) }
{
    let Some(rest) = after_order_by(tokens) else {
        return Ok(Read {
            tree: Vec::new(inner.alloc()),
            levels: 0,
            rest: tokens,
        });
    };
    let terms = term_list(inner, rest)?;
    Ok(terms)
}

/// What stands behind PARTITION BY, if that is written.
fn partition<'t, I: Inner<'t>>(
    inner: &I,
    tokens: &'t [Token<'t>],
) -> Result<Read<'t, Vec<Expr>>, Fault>
    requires { I.reads inner.now }
    ensures value { Yields (seen some_of) result
        (at spec.partition (I.setting inner.now) (lexemes_of tokens.now)) }
    ensures within { IfOk result (λ r. r.levels ≤ (I.setting inner.now).depth) }
{
    let Some(rest) = after_partition_by(tokens) else {
        return Ok(Read {
            tree: Vec::new(inner.alloc()),
            levels: 0,
            rest: tokens,
        });
    };
    let values = list(inner, None, rest)?;
    Ok(values)
}

/// A window, in its parentheses.
#[tactic(auto, unfolding(sql_reader_grammar::specs::Reading::window))]
pub fn window<'t, I: Inner<'t>>(
    inner: &I,
    tokens: &'t [Token<'t>],
) -> Result<Read<'t, Window>, Fault>
    requires { I.reads inner.now }
    ensures value { Yields (seen window_of) result
        (at spec.window (I.setting inner.now) (lexemes_of tokens.now)) }
    ensures within { IfOk result (λ r. r.levels ≤ (I.setting inner.now).depth) }
{
    let end = inner.end();
    let rest = needed(after_sign(tokens, Sign::Open), tokens, end)?;
    let parts = partition(inner, rest)?;
    let terms = order(inner, parts.rest)?;
    let frame = frame(terms.rest, end)?;
    let rest = needed(after_sign(frame.rest, Sign::Close), frame.rest, end)?;
    Ok(Read {
        tree: windowed(parts.tree, terms.tree, frame.tree),
        levels: parts.levels.max(terms.levels.max(frame.levels)),
        rest,
    })
}

/// What stands behind the word OVER.
fn over_at<'t, I: Inner<'t>>(inner: &I, tokens: &'t [Token<'t>]) -> Result<Read<'t, Over>, Fault>
    requires { I.reads inner.now }
    ensures value { Yields (seen over_of) result
        (at spec.over_at (I.setting inner.now) (lexemes_of tokens.now)) }
    ensures within { IfOk result (λ r. r.levels ≤ (I.setting inner.now).depth) }
{
    if let [first, rest @ ..] = tokens
        && let TokenKind::Name(quoting, inside) = first.kind
    {
        let name = name_content(inner.alloc(), quoting, inside)?;
        return Ok(Read {
            tree: over_name(name),
            levels: 0,
            rest,
        });
    }
    let window = window(inner, tokens)?;
    Ok(Read {
        tree: over_window(inner.alloc(), window.tree)?,
        levels: window.levels,
        rest: window.rest,
    })
}

/// OVER, if that is written.
fn over<'t, I: Inner<'t>>(inner: &I, tokens: &'t [Token<'t>]) -> Result<Read<'t, Over>, Fault>
    requires { I.reads inner.now }
    ensures value { Yields (seen over_of) result
        (at spec.over (I.setting inner.now) (lexemes_of tokens.now)) }
    ensures within { IfOk result (λ r. r.levels ≤ (I.setting inner.now).depth) }
{
    let Some(rest) = after_keyword(tokens, Keyword::Over) else {
        return Ok(Read {
            tree: over_nothing(),
            levels: 0,
            rest: tokens,
        });
    };
    let over = over_at(inner, rest)?;
    Ok(over)
}

/// The condition of FILTER, if that is written.
fn filter<'t, I: Inner<'t>>(
    inner: &I,
    tokens: &'t [Token<'t>],
) -> Result<Read<'t, Option<Expr>>, Fault>
    requires { I.reads inner.now }
    ensures value { Yields (seen present_of) result
        (at spec.filter (I.setting inner.now) (lexemes_of tokens.now)) }
    ensures within { IfOk result (λ r. r.levels ≤ (I.setting inner.now).depth) }
{
    let Some(rest) = after_keyword(tokens, Keyword::Filter) else {
        return Ok(Read {
            tree: None,
            levels: 0,
            rest: tokens,
        });
    };
    let end = inner.end();
    let rest = needed(after_sign(rest, Sign::Open), rest, end)?;
    let rest = needed(after_keyword(rest, Keyword::Where), rest, end)?;
    let condition = present(inner, rest)?;
    let rest = needed(after_sign(condition.rest, Sign::Close), condition.rest, end)?;
    Ok(Read {
        tree: condition.tree,
        levels: condition.levels,
        rest,
    })
}

/// What stands behind a call.
#[tactic(auto, unfolding(sql_reader_grammar::specs::Reading::behind))]
pub fn behind<'t, I: Inner<'t>>(
    inner: &I,
    tokens: &'t [Token<'t>],
) -> Result<Read<'t, CallSuffix>, Fault>
    requires { I.reads inner.now }
    ensures value { Yields (seen behind_of) result
        (at spec.behind (I.setting inner.now) (lexemes_of tokens.now)) }
    ensures within { IfOk result (λ r. r.levels ≤ (I.setting inner.now).depth) }
{
    let filter = filter(inner, tokens)?;
    let over = over(inner, filter.rest)?;
    Ok(Read {
        tree: standing(inner.alloc(), filter.tree, over.tree)?,
        levels: filter.levels.max(over.levels),
        rest: over.rest,
    })
}
