//! A query.
ghost use Rattle.std.specs.Prelude.{◌≤◌, IfOk};
ghost use Rattle.sql_reader_exprs.specs.clause_reader.Seen.{seen};
ghost use Rattle.sql_reader_grammar.specs.Reading as spec;
ghost use Rattle.sql_reader_grammar.specs.phrases.Outcomes.{Yields};
ghost use Rattle.sql_reader_grammar.specs.phrases.Texts.{lexemes_of};
ghost use Rattle.sql_reader_grammar.specs.statement_trees.TreeView.{query_of};
ghost use Rattle.sql_reader_exprs.specs.window_reader.Setting.{at};

use crate::query_reader::InnerQueries;
use crate::query_reader::cores::select;
use crate::query_reader::trees::{all_arranged, arranged};
use sql_reader_exprs::{Read, compound_at};
use sql_reader_grammar::Query;
use sql_reader_tokens::Token;
use values::Fault;

/// A query: one SELECT or more, joined from the left.
#[tactic(auto, using(crate::proofs::lemmas::query_reader::CompoundLemmas::queries_end))]
pub fn query_by<'t, I: InnerQueries<'t>>(
    inner: &I,
    tokens: &'t [Token<'t>],
) -> Result<Read<'t, Query>, Fault>
    requires { I.reads inner.now }
    ensures value { Yields (seen query_of) result (at spec.query_by (I.setting inner.now) (lexemes_of tokens.now)) }
    ensures within { IfOk result (λ r. r.levels ≤ (I.setting inner.now).depth) }
{
    let first = select(inner, tokens)?;
    let mut others = Vec::new(inner.alloc());
    let mut levels = first.levels;
    let mut rest = first.rest;
    while let Some((operator, start)) = compound_at(rest) {
        if levels >= inner.depth() {
            return Err(Fault::Limit);
        }
        let next = inner.select(start)?;
        others.push(arranged(operator, next.tree))?;
        levels = (levels + 1).max(next.levels);
        rest = next.rest;
    }
    Ok(Read {
        tree: all_arranged(first.tree, others),
        levels,
        rest,
    })
}
