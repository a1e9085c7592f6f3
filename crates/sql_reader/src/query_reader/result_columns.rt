//! The result columns of a SELECT.
ghost use Rattle.std.specs.Prelude.{◌≤◌, length, IfOk};
ghost use Rattle.sql_reader_exprs.specs.clause_reader.Seen.{seen};
ghost use Rattle.sql_reader_grammar.specs.Reading as spec;
ghost use Rattle.sql_reader_grammar.specs.phrases.Outcomes.{Yields};
ghost use Rattle.sql_reader_grammar.specs.phrases.Texts.{lexemes_of};
ghost use Rattle.sql_reader_exprs.specs.window_reader.Setting.{at};
ghost use Rattle.sql_reader.specs.query_reader.Views.{columns_of, column_list_of};
ghost use Rattle.sql_reader_grammar.specs.statement_trees.TreeView.{result_of};
ghost use Rattle.sql_reader_syntax.specs.NameView.{name_of};

use crate::query_reader::trees::{all, all_of, value};
use sql_reader_exprs::{Beginning, Inner, OR_LEVEL, Read, a_name, beginning_at};
use sql_reader_grammar::{ResultColumn, after_sign};
use sql_reader_syntax::ResultName;
use sql_reader_tokens::{Keyword, Sign, Token, TokenKind, name_content};
use values::Fault;

/// What a result column is called whose expression ends before these tokens, and what is behind that. So many tokens
/// were left where the expression begins.
fn title<'t, I: Inner<'t>>(
    inner: &I,
    left: usize,
    tokens: &'t [Token<'t>],
) -> Result<Read<'t, ResultName>, Fault>
    requires { I.reads inner.now }
    ensures { Yields (seen name_of) result
        (spec.title ((I.setting inner.now).source left (length (lexemes_of tokens.now))) (lexemes_of tokens.now)) }
{
    if let [first, rest @ ..] = tokens {
        match first.kind {
            TokenKind::Keyword(Keyword::As) => {
                let alias = a_name(inner.alloc(), rest, inner.end())?;
                return Ok(Read {
                    tree: ResultName::Alias(alias.tree),
                    levels: alias.levels,
                    rest: alias.rest,
                });
            }
            TokenKind::Name(quoting, inside) => {
                let alias = name_content(inner.alloc(), quoting, inside)?;
                return Ok(Read {
                    tree: ResultName::Alias(alias),
                    levels: 0,
                    rest,
                });
            }
            _ => {}
        }
    }
    let text = inner.source_text(left, tokens.len())?;
    Ok(Read {
        tree: ResultName::SourceText(text),
        levels: 0,
        rest: tokens,
    })
}

/// A result column that is an expression.
fn expression<'t, I: Inner<'t>>(
    inner: &I,
    tokens: &'t [Token<'t>],
) -> Result<Read<'t, ResultColumn>, Fault>
    requires { I.reads inner.now }
    ensures value { Yields (seen result_of) result
        (at spec.value (I.setting inner.now) (lexemes_of tokens.now)) }
    ensures within { IfOk result (λ r. r.levels ≤ (I.setting inner.now).depth) }
{
    let read = inner.expr(OR_LEVEL, tokens)?;
    let name = title(inner, tokens.len(), read.rest)?;
    Ok(Read {
        tree: value(read.tree, name.tree),
        levels: read.levels,
        rest: name.rest,
    })
}

/// A result column.
fn result_column<'t, I: Inner<'t>>(
    inner: &I,
    tokens: &'t [Token<'t>],
) -> Result<Read<'t, ResultColumn>, Fault>
    requires { I.reads inner.now }
    ensures value { Yields (seen result_of) result
        (at spec.result (I.setting inner.now) (lexemes_of tokens.now)) }
    ensures within { IfOk result (λ r. r.levels ≤ (I.setting inner.now).depth) }
{
    match beginning_at(tokens) {
        Beginning::Star(rest) => Ok(Read {
            tree: all(),
            levels: 0,
            rest,
        }),
        Beginning::TableStar(quoting, inside, rest) => Ok(Read {
            tree: all_of(name_content(inner.alloc(), quoting, inside)?),
            levels: 0,
            rest,
        }),
        Beginning::Expression => expression(inner, tokens),
    }
}

/// The result columns, with commas between them.
#[tactic(auto, using(sql_reader_grammar::proofs::lemmas::phrases::TurnLemmas::series_end))]
fn column_list<'t, I: Inner<'t>>(
    inner: &I,
    tokens: &'t [Token<'t>],
) -> Result<Read<'t, Vec<ResultColumn>>, Fault>
    requires { I.reads inner.now }
    ensures value { Yields (seen column_list_of) result
        (spec.all (λ place. at spec.result (I.setting inner.now)) (lexemes_of tokens.now)) }
    ensures within { IfOk result (λ r. r.levels ≤ (I.setting inner.now).depth) }
{
    let mut trees = Vec::new(inner.alloc());
    let first = result_column(inner, tokens)?;
    trees.push(first.tree)?;
    let mut levels = first.levels;
    let mut rest = first.rest;
    while let Some(start) = after_sign(rest, Sign::Comma) {
        let next = result_column(inner, start)?;
        trees.push(next.tree)?;
        levels = levels.max(next.levels);
        rest = next.rest;
    }
    Ok(Read {
        tree: trees,
        levels,
        rest,
    })
}

/// The same as one tree.
#[tactic(auto, unfolding(sql_reader_grammar::specs::Reading::results))]
pub(crate) fn columns<'t, I: Inner<'t>>(
    inner: &I,
    tokens: &'t [Token<'t>],
) -> Result<Read<'t, Vec<ResultColumn>>, Fault>
    requires { I.reads inner.now }
    ensures value { Yields (seen columns_of) result
        (at spec.results (I.setting inner.now) (lexemes_of tokens.now)) }
    ensures within { IfOk result (λ r. r.levels ≤ (I.setting inner.now).depth) }
{
    let read = column_list(inner, tokens)?;
    Ok(read)
}
