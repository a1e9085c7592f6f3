//! A SELECT.
ghost use Rattle.std.specs.Prelude.{◌≤◌, IfOk};
ghost use Rattle.sql_reader_exprs.specs.clause_reader.Seen.{seen};
ghost use Rattle.sql_reader_grammar.specs.Reading as spec;
ghost use Rattle.sql_reader_grammar.specs.phrases.Outcomes.{Yields};
ghost use Rattle.sql_reader_grammar.specs.phrases.Texts.{lexemes_of};
ghost use Rattle.sql_reader.specs.query_reader.Parts.{parts_of};
ghost use Rattle.sql_reader_grammar.specs.statement_trees.TreeView.{core_of};
ghost use Rattle.sql_reader_exprs.specs.window_reader.Setting.{at};

use crate::query_reader::clauses::{condition, groups, windows};
use crate::query_reader::result_columns::columns;
use crate::query_reader::trees::selected;
use crate::source_reader::from;
use sql_reader_exprs::{Inner, Read, quantifier_at};
use sql_reader_grammar::{
    Expr, NamedWindow, ResultColumn, SelectCore, Sources, after_keyword, needed,
};
use sql_reader_tokens::{Keyword, Token};
use values::Fault;

/// What stands behind SELECT and its quantifier.
#[derive(Drop)]
pub(crate) struct Parts {
    pub(crate) columns: Vec<ResultColumn>,
    pub(crate) sources: Option<Sources>,
    pub(crate) condition: Option<Expr>,
    pub(crate) groups: Vec<Expr>,
    pub(crate) having: Option<Expr>,
    pub(crate) windows: Vec<NamedWindow>,
}

/// What stands behind SELECT and its quantifier.
fn all_parts<'t, I: Inner<'t>>(inner: &I, tokens: &'t [Token<'t>]) -> Result<Read<'t, Parts>, Fault>
    requires { I.reads inner.now }
    ensures value { Yields (seen parts_of) result (at spec.parts (I.setting inner.now) (lexemes_of tokens.now)) }
    ensures within { IfOk result (λ r. r.levels ≤ (I.setting inner.now).depth) }
{
    let columns = columns(inner, tokens)?;
    let sources = from(inner, columns.rest)?;
    let condition = condition(inner, sources.rest)?;
    let groups = groups(inner, condition.rest)?;
    let windows = windows(inner, groups.rest)?;
    let (keys, having) = groups.tree;
    let behind = condition.levels.max(groups.levels.max(windows.levels));
    Ok(Read {
        tree: Parts {
            columns: columns.tree,
            sources: sources.tree,
            condition: condition.tree,
            groups: keys,
            having,
            windows: windows.tree,
        },
        levels: columns.levels.max(sources.levels.max(behind)),
        rest: windows.rest,
    })
}

/// A SELECT, which is a level itself.
#[tactic(auto, unfolding(sql_reader_grammar::specs::Reading::core))]
pub fn select<'t, I: Inner<'t>>(
    inner: &I,
    tokens: &'t [Token<'t>],
) -> Result<Read<'t, SelectCore>, Fault>
    requires { I.reads inner.now }
    ensures value { Yields (seen core_of) result (at spec.core (I.setting inner.now) (lexemes_of tokens.now)) }
    ensures within { IfOk result (λ r. r.levels ≤ (I.setting inner.now).depth) }
{
    let rest = needed(after_keyword(tokens, Keyword::Select), tokens, inner.end())?;
    if inner.depth() == 0 {
        return Err(Fault::Limit);
    }
    let (distinct, rest) = quantifier_at(rest);
    let parts = all_parts(inner, rest)?;
    Ok(Read {
        tree: selected(distinct, parts.tree),
        levels: 1_usize.max(parts.levels),
        rest: parts.rest,
    })
}
