//! The items of WITH.
ghost use Rattle.std.specs.Prelude.{◌<◌};
ghost use Rattle.sql_reader_exprs.specs.clause_reader.Seen.{seen};
ghost use Rattle.sql_reader_grammar.specs.Reading as spec;
ghost use Rattle.sql_reader_grammar.specs.phrases.Outcomes.{Yields};
ghost use Rattle.sql_reader_grammar.specs.phrases.Texts.{lexemes_of};
ghost use Rattle.sql_reader.specs.statement_reader.Parts.{heading_of, items_of, levels_at};
ghost use Rattle.sql_reader_grammar.specs.statement_trees.StatementView.{item_of};
ghost use Rattle.sql_reader_grammar.specs.statement_trees.TreeView.{query_of};

use sql_reader_exprs::{Inner, Read, a_name, columns};
use sql_reader_grammar::{CommonTableExpr, Query, after_keyword, after_sign, needed};
use sql_reader_tokens::{Keyword, Sign, Token};
use values::Fault;

/// The name of an item and those of its columns, with the AS behind them.
fn heading<'t, I: Inner<'t>>(
    inner: &I,
    tokens: &'t [Token<'t>],
) -> Result<Read<'t, (String, Vec<String>)>, Fault>
    ensures { Yields (seen heading_of) result
        (spec.heading (I.setting inner.now).source (lexemes_of tokens.now)) }
{
    let (alloc, end) = (inner.alloc(), inner.end());
    let name = a_name(alloc, tokens, end)?;
    let columns = columns(alloc, name.rest, end)?;
    let rest = needed(after_keyword(columns.rest, Keyword::As), columns.rest, end)?;
    Ok(Read {
        tree: (name.tree, columns.tree),
        levels: name.levels.max(columns.levels),
        rest,
    })
}

/// The query of an item, in its parentheses.
#[tactic(auto, using(crate::proofs::lemmas::statement_reader::Outermost::outermost_is))]
fn item_query<'t, I: Inner<'t>>(
    inner: &I,
    tokens: &'t [Token<'t>],
) -> Result<Read<'t, Query>, Fault>
    requires reads { I.reads inner.now }
    requires outermost { 0 < (I.setting inner.now).depth }
    ensures { Yields (seen query_of) result
        (spec.item_query (I.setting inner.now).source (levels_at (I.setting inner.now)) (lexemes_of tokens.now)) }
{
    let rest = needed(after_sign(tokens, Sign::Open), tokens, inner.end())?;
    let query = inner.query(rest)?;
    let rest = needed(after_sign(query.rest, Sign::Close), query.rest, inner.end())?;
    Ok(Read {
        tree: query.tree,
        levels: query.levels,
        rest,
    })
}

/// An item of WITH.
fn item<'t, I: Inner<'t>>(
    inner: &I,
    tokens: &'t [Token<'t>],
) -> Result<Read<'t, CommonTableExpr>, Fault>
    requires reads { I.reads inner.now }
    requires outermost { 0 < (I.setting inner.now).depth }
    ensures { Yields (seen item_of) result
        (spec.an_item (I.setting inner.now).source (levels_at (I.setting inner.now)) (lexemes_of tokens.now)) }
{
    let heading = heading(inner, tokens)?;
    let query = item_query(inner, heading.rest)?;
    let (name, columns) = heading.tree;
    Ok(Read {
        tree: CommonTableExpr {
            name,
            columns,
            query: query.tree,
        },
        levels: heading.levels.max(query.levels),
        rest: query.rest,
    })
}

/// One item or more, with commas between them.
#[tactic(auto, using(sql_reader_grammar::proofs::lemmas::phrases::TurnLemmas::series_end))]
fn item_list<'t, I: Inner<'t>>(
    inner: &I,
    tokens: &'t [Token<'t>],
) -> Result<Read<'t, Vec<CommonTableExpr>>, Fault>
    requires reads { I.reads inner.now }
    requires outermost { 0 < (I.setting inner.now).depth }
    ensures { Yields (seen items_of) result
        (spec.items_at (I.setting inner.now).source (levels_at (I.setting inner.now)) (lexemes_of tokens.now)) }
{
    let mut items = Vec::new(inner.alloc());
    let first = item(inner, tokens)?;
    items.push(first.tree)?;
    let mut levels = first.levels;
    let mut rest = first.rest;
    while let Some(start) = after_sign(rest, Sign::Comma) {
        let next = item(inner, start)?;
        items.push(next.tree)?;
        levels = levels.max(next.levels);
        rest = next.rest;
    }
    Ok(Read {
        tree: items,
        levels,
        rest,
    })
}

/// The items of WITH, if that is written.
pub(crate) fn items<'t, I: Inner<'t>>(
    inner: &I,
    tokens: &'t [Token<'t>],
) -> Result<Read<'t, Vec<CommonTableExpr>>, Fault>
    requires reads { I.reads inner.now }
    requires outermost { 0 < (I.setting inner.now).depth }
    ensures { Yields (seen items_of) result
        (spec.items (I.setting inner.now).source (levels_at (I.setting inner.now)) (lexemes_of tokens.now)) }
{
    let Some(rest) = after_keyword(tokens, Keyword::With) else {
        return Ok(Read {
            tree: Vec::new(inner.alloc()),
            levels: 0,
            rest: tokens,
        });
    };
    let items = item_list(inner, rest)?;
    Ok(items)
}
