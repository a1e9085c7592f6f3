//! What comes before the first operator of an expression.
ghost use Rattle.std.specs.Prelude.{◌≤◌, IfOk};
ghost use Rattle.sql_reader_exprs.specs.clause_reader.Seen.{seen};
ghost use Rattle.sql_reader_exprs.specs.window_reader.Setting.{at};
ghost use Rattle.sql_reader_grammar.specs.Reading as spec;
ghost use Rattle.sql_reader_grammar.specs.phrases.Outcomes.{Yields};
ghost use Rattle.sql_reader_grammar.specs.phrases.Texts.{lexemes_of};
ghost use Rattle.sql_reader_grammar.specs.Fronts as front;
ghost use Rattle.sql_reader_grammar.specs.Operators.{or_level};
ghost use Rattle.sql_reader_grammar.specs.statement_trees.TreeView.{expr_of};

use crate::call_reader::named;
use crate::case_reader::choice;
use crate::clause_reader::Read;
use crate::expr_reader::trees::{existence, literal, prefix};
use crate::lookahead::{OR_LEVEL, Opening, level_of_prefix, opening_at};
use crate::window_reader::Inner;
use sql_reader_grammar::{Expr, after_sign, needed, syntax_at};
use sql_reader_tokens::{Sign, Token};
use values::Fault;

/// An expression behind its parenthesis.
#[tactic(auto, unfolding(sql_reader_grammar::specs::Reading::operand_at))]
fn parenthesis<'t, I: Inner<'t>>(
    inner: &I,
    tokens: &'t [Token<'t>],
) -> Result<Read<'t, Expr>, Fault>
    requires { I.reads inner.now }
    ensures value { Yields (seen expr_of) result
        (at spec.operand_at (I.setting inner.now) or_level (front.Opening.Parenthesis (lexemes_of tokens.now))) }
    ensures within { IfOk result (λ r. r.levels ≤ (I.setting inner.now).depth) }
{
    let read = inner.expr(OR_LEVEL, tokens)?;
    let rest = needed(after_sign(read.rest, Sign::Close), read.rest, inner.end())?;
    Ok(Read {
        tree: read.tree,
        levels: read.levels,
        rest,
    })
}

/// A query behind EXISTS and its parenthesis.
#[tactic(auto, unfolding(sql_reader_grammar::specs::Reading::operand_at))]
fn exists<'t, I: Inner<'t>>(inner: &I, tokens: &'t [Token<'t>]) -> Result<Read<'t, Expr>, Fault>
    requires { I.reads inner.now }
    ensures value { Yields (seen expr_of) result
        (at spec.operand_at (I.setting inner.now) or_level (front.Opening.Existence (lexemes_of tokens.now))) }
    ensures within { IfOk result (λ r. r.levels ≤ (I.setting inner.now).depth) }
{
    let query = inner.query(tokens)?;
    let rest = needed(after_sign(query.rest, Sign::Close), query.rest, inner.end())?;
    Ok(Read {
        tree: existence(inner.alloc(), query.tree)?,
        levels: query.levels,
        rest,
    })
}

/// What stands before the first operator, in an expression of at least the level `least`.
#[tactic(auto, unfolding(sql_reader_grammar::specs::Reading::operand_at))]
pub(crate) fn operand<'t, I: Inner<'t>>(
    inner: &I,
    least: u8,
    tokens: &'t [Token<'t>],
) -> Result<Read<'t, Expr>, Fault>
    requires { I.reads inner.now }
    ensures value { Yields (seen expr_of) result
        (at spec.operand (I.setting inner.now) least (lexemes_of tokens.now)) }
    ensures within { IfOk result (λ r. r.levels ≤ (I.setting inner.now).depth) }
{
    let end = inner.end();
    match opening_at(tokens) {
        Opening::Value(value, rest) => Ok(Read {
            tree: literal(inner.alloc(), value)?,
            levels: 0,
            rest,
        }),
        Opening::Word(quoting, inside, rest) => named(inner, quoting, inside, rest),
        Opening::Operator(operator, rest) => {
            let level = level_of_prefix(operator);
            if least > level {
                return Err(syntax_at(tokens, end));
            }
            let read = inner.expr(level, rest)?;
            Ok(Read {
                tree: prefix(inner.alloc(), operator, read.tree)?,
                levels: read.levels,
                rest: read.rest,
            })
        }
        Opening::Parenthesis(rest) => parenthesis(inner, rest),
        Opening::Choice(rest) => choice(inner, rest),
        Opening::Existence(rest) => exists(inner, rest),
        Opening::Nothing => Err(syntax_at(tokens, end)),
    }
}
