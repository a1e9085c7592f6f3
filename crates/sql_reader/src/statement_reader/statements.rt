//! A statement.
ghost use Rattle.std.specs.Prelude.{◌<◌};
ghost use Rattle.sql_reader_exprs.specs.clause_reader.Seen.{seen};
ghost use Rattle.sql_reader_grammar.specs.Reading as spec;
ghost use Rattle.sql_reader_grammar.specs.phrases.Outcomes.{Yields};
ghost use Rattle.sql_reader_grammar.specs.phrases.Texts.{lexemes_of};
ghost use Rattle.sql_reader.specs.statement_reader.Parts.{body_of, clauses_of, ending_of, levels_at};
ghost use Rattle.sql_reader_grammar.specs.statement_trees.StatementView.{statement_of};
ghost use Rattle.sql_reader_exprs.specs.window_reader.Setting.{at, inner_at};

use crate::statement_reader::items::items;
use sql_reader_exprs::{Inner, Read, explained_at, limit, order};
use sql_reader_grammar::{
    CommonTableExpr, OrderingTerm, Query, SignedNumber, Statement, after_semicolon, ends, syntax_at,
};
use sql_reader_tokens::Token;
use values::Fault;

/// What stands behind the query of a statement: ORDER BY, LIMIT and OFFSET.
#[derive(Drop)]
pub(crate) struct Ending {
    order: Vec<OrderingTerm>,
    limit: Option<SignedNumber>,
    offset: Option<SignedNumber>,
}

/// ORDER BY, LIMIT and OFFSET.
fn order_and_limit<'t, I: Inner<'t>>(
    inner: &I,
    tokens: &'t [Token<'t>],
) -> Result<Read<'t, Ending>, Fault>
    requires { I.reads inner.now }
    ensures { Yields (seen ending_of) result
        (spec.both (at spec.order (I.setting inner.now) (lexemes_of tokens.now)) spec.limit) }
{
    let order = order(inner, tokens)?;
    let limits = limit(order.rest, inner.end())?;
    let (limit, offset) = limits.tree;
    Ok(Read {
        tree: Ending {
            order: order.tree,
            limit,
            offset,
        },
        levels: order.levels.max(limits.levels),
        rest: limits.rest,
    })
}

/// What stands behind WITH.
#[derive(Drop)]
pub(crate) struct Body {
    query: Query,
    ending: Ending,
}

/// The query, ORDER BY, LIMIT and OFFSET.
fn query_and_ending<'t, I: Inner<'t>>(
    inner: &I,
    tokens: &'t [Token<'t>],
) -> Result<Read<'t, Body>, Fault>
    requires { I.reads inner.now }
    ensures { Yields (seen body_of) result
        (spec.both ((inner_at (I.setting inner.now)).query (lexemes_of tokens.now))
        (λ ts. spec.both (at spec.order (I.setting inner.now) ts) spec.limit)) }
{
    let query = inner.query(tokens)?;
    let ending = order_and_limit(inner, query.rest)?;
    Ok(Read {
        tree: Body {
            query: query.tree,
            ending: ending.tree,
        },
        levels: query.levels.max(ending.levels),
        rest: ending.rest,
    })
}

/// What stands behind EXPLAIN QUERY PLAN.
#[tactic(auto, using(crate::proofs::lemmas::statement_reader::Outermost::clauses_are))]
fn clauses<'t, I: Inner<'t>>(
    inner: &I,
    tokens: &'t [Token<'t>],
) -> Result<Read<'t, (Vec<CommonTableExpr>, Body)>, Fault>
    requires reads { I.reads inner.now }
    requires outermost { 0 < (I.setting inner.now).depth }
    ensures { Yields (seen clauses_of) result
        (spec.clauses (I.setting inner.now).source (levels_at (I.setting inner.now)) (lexemes_of tokens.now)) }
{
    let items = items(inner, tokens)?;
    let body = query_and_ending(inner, items.rest)?;
    Ok(Read {
        tree: (items.tree, body.tree),
        levels: items.levels.max(body.levels),
        rest: body.rest,
    })
}

/// A statement, which is all of the tokens. What it holds stands in one construct more, which is no level.
#[tactic(auto, unfolding(sql_reader_grammar::specs::Reading::statement))]
pub fn statement<'t, I: Inner<'t>>(inner: &I, tokens: &'t [Token<'t>]) -> Result<Statement, Fault>
    requires reads { I.reads inner.now }
    requires outermost { 0 < (I.setting inner.now).depth }
    ensures { Yields statement_of result
        (spec.statement (I.setting inner.now).source (levels_at (I.setting inner.now)) (lexemes_of tokens.now)) }
{
    let (explain, rest) = explained_at(tokens);
    let clauses = clauses(inner, rest)?;
    if !ends(clauses.rest) {
        return Err(syntax_at(after_semicolon(clauses.rest), inner.end()));
    }
    let (items, Body { query, ending }) = clauses.tree;
    Ok(Statement {
        explain,
        items,
        query,
        order: ending.order,
        limit: ending.limit,
        offset: ending.offset,
    })
}
