//! An expression, with the operators in it.
ghost use Rattle.std.specs.Prelude.{◌<◌, ◌≤◌, IfOk};
ghost use Rattle.sql_reader_exprs.specs.clause_reader.Seen.{seen};
ghost use Rattle.sql_reader_exprs.specs.window_reader.Setting.{at};
ghost use Rattle.sql_reader_grammar.specs.Reading as spec;
ghost use Rattle.sql_reader_grammar.specs.phrases.Outcomes.{Yields};
ghost use Rattle.sql_reader_grammar.specs.phrases.Texts.{lexemes_of};
ghost use Rattle.sql_reader_grammar.specs.statement_trees.TreeView.{expr_of};

use crate::clause_reader::Read;
use crate::expr_reader::joints::{with_between, with_binary, with_members, with_postfix};
use crate::expr_reader::operands::operand;
use crate::lookahead::{Joint, binds, joint_at};
use crate::window_reader::Inner;
use sql_reader_grammar::{Expr, syntax_at};
use sql_reader_tokens::Token;
use values::Fault;

/// A left operand with the operator that follows it.
#[tactic(auto, unfolding(sql_reader_grammar::specs::Reading::extended, sql_reader_grammar::specs::Reading::extended_at))]
fn extended<'t, I: Inner<'t>>(inner: &I, left: Read<'t, Expr>) -> Result<Read<'t, Expr>, Fault>
    requires { I.reads inner.now }
    ensures value { Yields (seen expr_of) result (at spec.extended (I.setting inner.now) (seen expr_of left.entry)) }
    ensures within { IfOk result (λ r. r.levels ≤ (I.setting inner.now).depth) }
    ensures more { IfOk result (λ r. left.entry.levels < r.levels) }
{
    if left.levels >= inner.depth() {
        return Err(Fault::Limit);
    }
    let levels = left.levels + 1;
    match joint_at(left.rest) {
        Joint::Binary(operator, rest) => with_binary(inner, left, levels, operator, rest),
        Joint::Between(negated, rest) => with_between(inner, left, levels, negated, rest),
        Joint::In(negated, rest) => with_members(inner, left, levels, negated, rest),
        Joint::Postfix(operator, rest) => with_postfix(inner, left, levels, operator, rest),
        Joint::Dangling | Joint::Tight | Joint::Stop => Err(syntax_at(left.rest, inner.end())),
    }
}

/// An expression of at least the level `least`.
#[tactic(auto, using(crate::proofs::lemmas::expr_reader::OperatorLemmas::operand_err, crate::proofs::lemmas::expr_reader::OperatorLemmas::operand_ok, crate::proofs::lemmas::expr_reader::OperatorLemmas::extended_err, crate::proofs::lemmas::expr_reader::OperatorLemmas::extended_ok, crate::proofs::lemmas::expr_reader::OperatorLemmas::no_more))]
pub fn expr_by<'t, I: Inner<'t>>(
    inner: &I,
    least: u8,
    tokens: &'t [Token<'t>],
) -> Result<Read<'t, Expr>, Fault>
    requires { I.reads inner.now }
    ensures value { Yields (seen expr_of) result
        (at spec.expr_by (I.setting inner.now) least (lexemes_of tokens.now)) }
    ensures within { IfOk result (λ r. r.levels ≤ (I.setting inner.now).depth) }
{
    let mut read = operand(inner, least, tokens)?;
    while binds(read.rest) >= least {
        read = extended(inner, read)?;
    }
    Ok(read)
}
