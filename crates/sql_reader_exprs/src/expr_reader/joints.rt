//! What follows a left operand: one function for each kind of operator.
ghost use Rattle.sql_reader_exprs.specs.clause_reader.Seen.{seen};
ghost use Rattle.sql_reader_grammar.specs.Fronts as front;
ghost use Rattle.sql_reader_grammar.specs.Reading as spec;
ghost use Rattle.sql_reader_grammar.specs.phrases.Outcomes.{Yields};
ghost use Rattle.sql_reader_grammar.specs.phrases.Texts.{lexemes_of};
ghost use Rattle.sql_reader_grammar.specs.statement_trees.TreeView.{expr_of};
ghost use Rattle.std.specs.Prelude.{◌≡◌, ◌+◌, ◌<◌, ◌≤◌, IfOk};
ghost use Rattle.sql_reader_exprs.specs.window_reader.Setting.{at};

use crate::clause_reader::Read;
use crate::expr_reader::trees::{between, binary, membership, postfix, query_membership};
use crate::lookahead::{COMPARISON_LEVEL, Membership, level_of, loosely, membership_at};
use crate::window_reader::{Inner, list};
use sql_reader_grammar::{Expr, after_keyword, after_sign, needed};
use sql_reader_syntax::{BinaryOperator, PostfixOperator};
use sql_reader_tokens::{Keyword, Sign, Token};
use values::Fault;

/// What stands in the parentheses of IN, behind the first.
fn members<'t, I: Inner<'t>>(
    inner: &I,
    negated: bool,
    left: Read<'t, Expr>,
    tokens: &'t [Token<'t>],
) -> Result<Read<'t, Expr>, Fault>
    requires { I.reads inner.now }
    ensures value { Yields (seen expr_of) result
        (at spec.members (I.setting inner.now) negated (seen expr_of left.entry) (lexemes_of tokens.now)
        (front.membership (lexemes_of tokens.now))) }
    ensures within { IfOk result (λ r. r.levels ≤ (I.setting inner.now).depth) }
{
    let (alloc, end) = (inner.alloc(), inner.end());
    match membership_at(tokens) {
        Membership::Empty(rest) => Ok(Read {
            tree: membership(alloc, negated, left.tree, Vec::new(alloc))?,
            levels: 0,
            rest,
        }),
        Membership::Query => {
            let query = inner.query(tokens)?;
            let rest = needed(after_sign(query.rest, Sign::Close), query.rest, end)?;
            Ok(Read {
                tree: query_membership(alloc, negated, left.tree, query.tree)?,
                levels: query.levels,
                rest,
            })
        }
        Membership::Members => {
            let all = list(inner, None, tokens)?;
            let rest = needed(after_sign(all.rest, Sign::Close), all.rest, end)?;
            Ok(Read {
                tree: membership(alloc, negated, left.tree, all.tree)?,
                levels: all.levels,
                rest,
            })
        }
    }
}

/// With a right operand, behind the operator.
#[tactic(auto, unfolding(sql_reader_grammar::specs::Reading::extended_at))]
pub(crate) fn with_binary<'t, I: Inner<'t>>(
    inner: &I,
    left: Read<'t, Expr>,
    levels: usize,
    operator: BinaryOperator,
    tokens: &'t [Token<'t>],
) -> Result<Read<'t, Expr>, Fault>
    requires reads { I.reads inner.now }
    requires below { left.levels < (I.setting inner.now).depth }
    requires counted { levels ≡ left.levels + 1 }
    ensures value { Yields (seen expr_of) result
        (at spec.extended_at (I.setting inner.now) (seen expr_of left.entry) (front.Joint.Binary operator (lexemes_of tokens.now))) }
    ensures within { IfOk result (λ r. r.levels ≤ (I.setting inner.now).depth) }
    ensures more { IfOk result (λ r. left.entry.levels < r.levels) }
{
    let right = inner.expr(level_of(operator) + 1, tokens)?;
    Ok(Read {
        tree: binary(inner.alloc(), operator, left.tree, right.tree)?,
        levels: levels.max(right.levels),
        rest: right.rest,
    })
}

/// With the bounds of BETWEEN, behind that word.
#[tactic(auto, unfolding(sql_reader_grammar::specs::Reading::extended_at))]
pub(crate) fn with_between<'t, I: Inner<'t>>(
    inner: &I,
    left: Read<'t, Expr>,
    levels: usize,
    negated: bool,
    tokens: &'t [Token<'t>],
) -> Result<Read<'t, Expr>, Fault>
    requires reads { I.reads inner.now }
    requires below { left.levels < (I.setting inner.now).depth }
    requires counted { levels ≡ left.levels + 1 }
    ensures value { Yields (seen expr_of) result
        (at spec.extended_at (I.setting inner.now) (seen expr_of left.entry) (front.Joint.Between negated (lexemes_of tokens.now))) }
    ensures within { IfOk result (λ r. r.levels ≤ (I.setting inner.now).depth) }
    ensures more { IfOk result (λ r. left.entry.levels < r.levels) }
{
    let low = inner.expr(COMPARISON_LEVEL, tokens)?;
    let rest = needed(after_keyword(low.rest, Keyword::And), low.rest, inner.end())?;
    let high = inner.expr(COMPARISON_LEVEL, rest)?;
    Ok(Read {
        tree: between(inner.alloc(), negated, left.tree, low.tree, high.tree)?,
        levels: levels.max(low.levels.max(high.levels)),
        rest: high.rest,
    })
}

/// With what stands in the parentheses of IN, behind that word.
#[tactic(auto, unfolding(sql_reader_grammar::specs::Reading::extended_at))]
pub(crate) fn with_members<'t, I: Inner<'t>>(
    inner: &I,
    left: Read<'t, Expr>,
    levels: usize,
    negated: bool,
    tokens: &'t [Token<'t>],
) -> Result<Read<'t, Expr>, Fault>
    requires reads { I.reads inner.now }
    requires below { left.levels < (I.setting inner.now).depth }
    requires counted { levels ≡ left.levels + 1 }
    ensures value { Yields (seen expr_of) result
        (at spec.extended_at (I.setting inner.now) (seen expr_of left.entry) (front.Joint.In negated (lexemes_of tokens.now))) }
    ensures within { IfOk result (λ r. r.levels ≤ (I.setting inner.now).depth) }
    ensures more { IfOk result (λ r. left.entry.levels < r.levels) }
{
    let end = inner.end();
    let rest = needed(after_sign(tokens, Sign::Open), tokens, end)?;
    let members = members(inner, negated, left, rest)?;
    let rest = loosely(members.rest, end)?;
    Ok(Read {
        tree: members.tree,
        levels: levels.max(members.levels),
        rest,
    })
}

/// With an operator that has no right operand, behind it.
#[tactic(auto, unfolding(sql_reader_grammar::specs::Reading::extended_at))]
pub(crate) fn with_postfix<'t, I: Inner<'t>>(
    inner: &I,
    left: Read<'t, Expr>,
    levels: usize,
    operator: PostfixOperator,
    tokens: &'t [Token<'t>],
) -> Result<Read<'t, Expr>, Fault>
    requires reads { I.reads inner.now }
    requires below { left.levels < (I.setting inner.now).depth }
    requires counted { levels ≡ left.levels + 1 }
    ensures value { Yields (seen expr_of) result
        (at spec.extended_at (I.setting inner.now) (seen expr_of left.entry) (front.Joint.Postfix operator (lexemes_of tokens.now))) }
    ensures within { IfOk result (λ r. r.levels ≤ (I.setting inner.now).depth) }
    ensures more { IfOk result (λ r. left.entry.levels < r.levels) }
{
    let rest = loosely(tokens, inner.end())?;
    Ok(Read {
        tree: postfix(inner.alloc(), operator, left.tree)?,
        levels,
        rest,
    })
}
