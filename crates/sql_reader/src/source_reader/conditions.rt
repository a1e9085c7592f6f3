//! The conditions of joins.
ghost use Rattle.std.specs.Prelude.{◌≤◌, IfOk};
ghost use Rattle.sql_reader_exprs.specs.clause_reader.Seen.{seen};
ghost use Rattle.sql_reader_exprs.specs.lookahead.QueryFronts.{wants_of};
ghost use Rattle.sql_reader_grammar.specs.Reading as spec;
ghost use Rattle.sql_reader_grammar.specs.phrases.Outcomes.{Yields};
ghost use Rattle.sql_reader_grammar.specs.phrases.Steps as steps;
ghost use Rattle.sql_reader_grammar.specs.phrases.Texts.{lexemes_of};
ghost use Rattle.sql_reader_grammar.specs.statement_trees.TreeView.{on_of};
ghost use Rattle.sql_reader_tokens.specs.declared.keywords.keyword.Keyword.TheVariants as k;
ghost use Rattle.sql_reader_exprs.specs.window_reader.Setting.{at};

use crate::source_reader::trees::{always, on_condition, using};
use sql_reader_exprs::{Inner, OR_LEVEL, Read, Wants, names};
use sql_reader_grammar::{JoinCondition, after_keyword, after_sign, needed, syntax_at};
use sql_reader_tokens::{Keyword, Sign, Token};
use values::Fault;

/// A join's condition that isn't written, where it may be left out.
fn absent_on<'t, I: Inner<'t>>(
    inner: &I,
    wants: Wants,
    tokens: &'t [Token<'t>],
) -> Result<Read<'t, JoinCondition>, Fault>
    requires { I.reads inner.now }
    ensures value { Yields (seen on_of) result
        (at spec.absent_on (I.setting inner.now) (wants_of wants) (lexemes_of tokens.now)) }
    ensures within { IfOk result (λ r. r.levels ≤ (I.setting inner.now).depth) }
{
    if !wants.may_lack() {
        return Err(syntax_at(tokens, inner.end()));
    }
    Ok(Read {
        tree: always(),
        levels: 0,
        rest: tokens,
    })
}

/// USING and its columns, if they are written.
fn using_at<'t, I: Inner<'t>>(
    inner: &I,
    wants: Wants,
    tokens: &'t [Token<'t>],
) -> Result<Read<'t, JoinCondition>, Fault>
    requires { I.reads inner.now }
    ensures value { Yields (seen on_of) result
        (at spec.using_at (I.setting inner.now) (wants_of wants) (lexemes_of tokens.now)
        (steps.after_keyword k.Using (lexemes_of tokens.now))) }
    ensures within { IfOk result (λ r. r.levels ≤ (I.setting inner.now).depth) }
{
    let Some(rest) = after_keyword(tokens, Keyword::Using) else {
        let read = absent_on(inner, wants, tokens)?;
        return Ok(read);
    };
    let (alloc, end) = (inner.alloc(), inner.end());
    let rest = needed(after_sign(rest, Sign::Open), rest, end)?;
    let columns = names(alloc, rest, end)?;
    let rest = needed(after_sign(columns.rest, Sign::Close), columns.rest, end)?;
    Ok(Read {
        tree: using(columns.tree),
        levels: columns.levels,
        rest,
    })
}

/// The condition of a join.
pub(crate) fn on<'t, I: Inner<'t>>(
    inner: &I,
    wants: Wants,
    tokens: &'t [Token<'t>],
) -> Result<Read<'t, JoinCondition>, Fault>
    requires { I.reads inner.now }
    ensures value { Yields (seen on_of) result
        (at spec.on (I.setting inner.now) (wants_of wants) (lexemes_of tokens.now)) }
    ensures within { IfOk result (λ r. r.levels ≤ (I.setting inner.now).depth) }
{
    if !wants.may_have() {
        let read = absent_on(inner, wants, tokens)?;
        return Ok(read);
    }
    let Some(rest) = after_keyword(tokens, Keyword::On) else {
        let read = using_at(inner, wants, tokens)?;
        return Ok(read);
    };
    let read = inner.expr(OR_LEVEL, rest)?;
    Ok(Read {
        tree: on_condition(read.tree),
        levels: read.levels,
        rest: read.rest,
    })
}
