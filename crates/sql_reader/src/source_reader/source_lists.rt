//! The sources of FROM.
ghost use Rattle.std.specs.Prelude.{◌≤◌, IfOk};
ghost use Rattle.sql_reader_exprs.specs.clause_reader.Seen.{seen};
ghost use Rattle.sql_reader_exprs.specs.lookahead.QueryFronts.{wants_of};
ghost use Rattle.sql_reader_grammar.specs.Reading as spec;
ghost use Rattle.sql_reader_grammar.specs.phrases.Outcomes.{Yields};
ghost use Rattle.sql_reader_grammar.specs.phrases.Texts.{lexemes_of};
ghost use Rattle.sql_reader.specs.source_reader.Views.{from_of, source_and_on};
ghost use Rattle.sql_reader_grammar.specs.statement_trees.TreeView.{source_of, sources_of};
ghost use Rattle.sql_reader_exprs.specs.window_reader.Setting.{at};

use crate::source_reader::conditions::on;
use crate::source_reader::trees::{all_joined, derived, joined, table};
use sql_reader_exprs::{Inner, Joining, Read, a_name, alias, join_at};
use sql_reader_grammar::{JoinCondition, Source, Sources, after_keyword, after_sign, needed};
use sql_reader_tokens::{Keyword, Sign, Token};
use values::Fault;

/// A table or a query, with its alias.
fn source<'t, I: Inner<'t>>(inner: &I, tokens: &'t [Token<'t>]) -> Result<Read<'t, Source>, Fault>
    requires { I.reads inner.now }
    ensures value { Yields (seen source_of) result
        (at spec.a_source (I.setting inner.now) (lexemes_of tokens.now)) }
    ensures within { IfOk result (λ r. r.levels ≤ (I.setting inner.now).depth) }
{
    let (alloc, end) = (inner.alloc(), inner.end());
    let Some(rest) = after_sign(tokens, Sign::Open) else {
        let name = a_name(alloc, tokens, end)?;
        let alias = alias(alloc, name.rest, end)?;
        return Ok(Read {
            tree: table(name.tree, alias.tree),
            levels: name.levels.max(alias.levels),
            rest: alias.rest,
        });
    };
    let query = inner.query(rest)?;
    let rest = needed(after_sign(query.rest, Sign::Close), query.rest, end)?;
    let alias = alias(alloc, rest, end)?;
    Ok(Read {
        tree: derived(alloc, query.tree, alias.tree)?,
        levels: query.levels.max(alias.levels),
        rest: alias.rest,
    })
}

/// A further source, behind how it is joined, and the condition of the join.
fn further<'t, I: Inner<'t>>(
    inner: &I,
    joining: Joining<'t>,
) -> Result<Read<'t, (Source, JoinCondition)>, Fault>
    requires { I.reads inner.now }
    ensures value { Yields (seen source_and_on) result
        (spec.both (at spec.a_source (I.setting inner.now) (lexemes_of joining.entry.rest.now))
        (at spec.on (I.setting inner.now) (wants_of joining.entry.wants))) }
    ensures within { IfOk result (λ r. r.levels ≤ (I.setting inner.now).depth) }
{
    let source = source(inner, joining.rest)?;
    let on = on(inner, joining.wants, source.rest)?;
    Ok(Read {
        tree: (source.tree, on.tree),
        levels: source.levels.max(on.levels),
        rest: on.rest,
    })
}

/// The sources of FROM.
#[tactic(auto, using(crate::proofs::lemmas::source_reader::SourceLemmas::sources_end))]
fn sources<'t, I: Inner<'t>>(inner: &I, tokens: &'t [Token<'t>]) -> Result<Read<'t, Sources>, Fault>
    requires { I.reads inner.now }
    ensures value { Yields (seen sources_of) result (at spec.sources (I.setting inner.now) (lexemes_of tokens.now)) }
    ensures within { IfOk result (λ r. r.levels ≤ (I.setting inner.now).depth) }
{
    let first = source(inner, tokens)?;
    let mut others = Vec::new(inner.alloc());
    let mut levels = first.levels;
    let mut rest = first.rest;
    while let Some(joining) = join_at(rest) {
        let join = joining.join;
        let next = further(inner, joining)?;
        let (source, condition) = next.tree;
        others.push(joined(join, source, condition))?;
        levels = levels.max(next.levels);
        rest = next.rest;
    }
    Ok(Read {
        tree: all_joined(first.tree, others),
        levels,
        rest,
    })
}

/// What stands behind FROM, if that is written.
pub fn from<'t, I: Inner<'t>>(
    inner: &I,
    tokens: &'t [Token<'t>],
) -> Result<Read<'t, Option<Sources>>, Fault>
    requires { I.reads inner.now }
    ensures value { Yields (seen from_of) result (at spec.from (I.setting inner.now) (lexemes_of tokens.now)) }
    ensures within { IfOk result (λ r. r.levels ≤ (I.setting inner.now).depth) }
{
    let Some(rest) = after_keyword(tokens, Keyword::From) else {
        return Ok(Read {
            tree: None,
            levels: 0,
            rest: tokens,
        });
    };
    let read = sources(inner, rest)?;
    Ok(Read {
        tree: Some(read.tree),
        levels: read.levels,
        rest: read.rest,
    })
}
