//! The term that an expression is, at a place of a SELECT.
ghost use Rattle.std.specs.Prelude.{map, option_map};
ghost use Rattle.resolver_exprs.specs.expression_names.Pairs.{pair, pair_of};
ghost use Rattle.resolver_exprs.specs.expression_names.Parts as parts;
ghost use Rattle.semantics_names.specs.Expression as spec;
ghost use Rattle.semantics_names.specs.Outcome.{both};
ghost use Rattle.resolver_terms.specs.Outcome.{Gives};
ghost use Rattle.expr.specs.View.{arm_terms, term};
ghost use Rattle.sql_reader_syntax.specs.ExprView.{maybe_of};
ghost use Rattle.sql_reader_grammar.specs.statement_trees.TreeView.{arm_of, expr_of};
ghost use Rattle.sql_reader_syntax.specs.ExprTree.{arms_of, trees_of};

use crate::expression_names::leaves::{among_answer, or_null, without_operands};
use crate::expression_names::{InnerQueries, Place};
use crate::expression_nodes as nodes;
use expr::{Arm, Expr as Term};
use sql_reader_grammar as written;
use sql_reader_grammar::Expr;
use sql_reader_syntax::BinaryOperator;
use std::alloc::Global;
use values::Fault;

/// The term that an expression is, at a place of a SELECT. The fault is the first that the place says of a part, from the
/// left to the right; `WrongPlace` of an aggregate or a window function of which it says nothing; or `NoMemory`. (SQL
/// Language Expressions)
#[cycle(names)]
pub fn term<I: InnerQueries, P: Place>(
    alloc: Global,
    inner: &I,
    place: &P,
    tree: &Expr,
) -> Result<Term, Fault>
    ensures { Gives term result (spec.term_of (I.answers inner.now) (P.meaning place.now) (expr_of tree.now)) }
{
    match place.says(alloc, tree)? {
        Some(said) => Ok(said),
        None => of_parts(alloc, inner, place, tree),
    }
}

// What the operator of an expression makes of its parts.
#[cycle(names)]
fn of_parts<I: InnerQueries, P: Place>(
    alloc: Global,
    inner: &I,
    place: &P,
    tree: &Expr,
) -> Result<Term, Fault>
    ensures { Gives term result (parts.of_parts (I.answers inner.now) (P.meaning place.now) (expr_of tree.now)) }
{
    match tree {
        Expr::Prefix(op, x) => Ok(nodes::prefix(alloc, *op, term(alloc, inner, place, x)?)?),
        Expr::Postfix(op, x) => Ok(nodes::postfix(alloc, *op, term(alloc, inner, place, x)?)?),
        Expr::Binary(op, x, y) => binary(alloc, inner, place, *op, x, y),
        Expr::Between(not, x, low, high) => between(alloc, inner, place, *not, x, low, high),
        Expr::In(not, x, items) => among(alloc, inner, place, *not, x, items),
        Expr::InQuery(not, x, query) => {
            let x = term(alloc, inner, place, x)?;
            among_answer(alloc, inner, *not, x, query)
        }
        Expr::Call(function, items, behind) => {
            let items = all_terms(alloc, inner, place, items)?;
            nodes::called(alloc, behind, *function, items)
        }
        Expr::Case(operand, arms, otherwise) => {
            case(alloc, inner, place, operand, arms, otherwise)
        }
        Expr::Null
        | Expr::Number(_)
        | Expr::Text(_)
        | Expr::Blob(_)
        | Expr::Column(_, _)
        | Expr::Exists(_)
        | Expr::CountRows(_) => without_operands(alloc, inner, tree),
    }
}

// An operator between its operands.
#[cycle(names)]
fn binary<I: InnerQueries, P: Place>(
    alloc: Global,
    inner: &I,
    place: &P,
    op: BinaryOperator,
    x: &Expr,
    y: &Expr,
) -> Result<Term, Fault>
    ensures { Gives term result (both (spec.binary op)
        (spec.term_of (I.answers inner.now) (P.meaning place.now) (expr_of x.now))
        (spec.term_of (I.answers inner.now) (P.meaning place.now) (expr_of y.now))) }
{
    let x = term(alloc, inner, place, x)?;
    let y = term(alloc, inner, place, y)?;
    Ok(nodes::binary(alloc, op, x, y)?)
}

// The terms of two expressions.
#[cycle(names)]
fn pair<I: InnerQueries, P: Place>(
    alloc: Global,
    inner: &I,
    place: &P,
    x: &Expr,
    y: &Expr,
) -> Result<(Term, Term), Fault>
    ensures { Gives pair_of result (both pair
        (spec.term_of (I.answers inner.now) (P.meaning place.now) (expr_of x.now))
        (spec.term_of (I.answers inner.now) (P.meaning place.now) (expr_of y.now))) }
{
    let x = term(alloc, inner, place, x)?;
    let y = term(alloc, inner, place, y)?;
    Ok((x, y))
}

// `x BETWEEN low AND high`, or NOT BETWEEN.
#[cycle(names)]
fn between<I: InnerQueries, P: Place>(
    alloc: Global,
    inner: &I,
    place: &P,
    not: bool,
    x: &Expr,
    low: &Expr,
    high: &Expr,
) -> Result<Term, Fault>
    ensures { Gives term result (parts.between (I.answers inner.now) (P.meaning place.now) not
        (expr_of x.now) (expr_of low.now) (expr_of high.now)) }
{
    let x = term(alloc, inner, place, x)?;
    let (low, high) = pair(alloc, inner, place, low, high)?;
    Ok(nodes::between(alloc, not, x, low, high)?)
}

// `x IN (..)` over a list, or NOT IN.
#[cycle(names)]
fn among<I: InnerQueries, P: Place>(
    alloc: Global,
    inner: &I,
    place: &P,
    not: bool,
    x: &Expr,
    items: &[Expr],
) -> Result<Term, Fault>
    ensures { Gives term result (both (spec.among_items not)
        (spec.term_of (I.answers inner.now) (P.meaning place.now) (expr_of x.now))
        (spec.terms_of (I.answers inner.now) (P.meaning place.now) (trees_of (map expr_of items.now)))) }
{
    let x = term(alloc, inner, place, x)?;
    let items = all_terms(alloc, inner, place, items)?;
    Ok(nodes::among(alloc, not, x, items)?)
}

// A CASE.
#[cycle(names)]
fn case<I: InnerQueries, P: Place>(
    alloc: Global,
    inner: &I,
    place: &P,
    operand: &Option<Box<Expr>>,
    arms: &[written::Arm],
    otherwise: &Option<Box<Expr>>,
) -> Result<Term, Fault>
    ensures { Gives term result (parts.case (I.answers inner.now) (P.meaning place.now)
        (maybe_of (option_map (λ e. expr_of e.value) operand.now)) (arms_of (map arm_of arms.now))
        (maybe_of (option_map (λ e. expr_of e.value) otherwise.now))) }
{
    let operand = maybe_term(alloc, inner, place, operand)?;
    let arms = all_arms(alloc, inner, place, arms)?;
    let otherwise = maybe_term(alloc, inner, place, otherwise)?;
    Ok(nodes::case(alloc, operand, arms, or_null(otherwise))?)
}

/// The terms of expressions, in their order. The fault is one of `term`.
#[cycle(names)]
pub fn all_terms<I: InnerQueries, P: Place>(
    alloc: Global,
    inner: &I,
    place: &P,
    items: &[Expr],
) -> Result<Vec<Term>, Fault>
    ensures { Gives (λ v. map term v.items) result
        (spec.terms_of (I.answers inner.now) (P.meaning place.now) (trees_of (map expr_of items.now))) }
{
    let mut terms = Vec::new(alloc);
    for item in items {
        let next = term(alloc, inner, place, item)?;
        terms.push(next)?;
    }
    Ok(terms)
}

// The terms of the arms of a CASE.
#[cycle(names)]
fn all_arms<I: InnerQueries, P: Place>(
    alloc: Global,
    inner: &I,
    place: &P,
    items: &[written::Arm],
) -> Result<Vec<Arm>, Fault>
    ensures { Gives (λ v. map arm_terms v.items) result
        (spec.arms_of (I.answers inner.now) (P.meaning place.now) (arms_of (map arm_of items.now))) }
{
    let mut arms = Vec::new(alloc);
    for item in items {
        let (when, then) = pair(alloc, inner, place, &item.when, &item.then)?;
        arms.push(nodes::when_then(when, then))?;
    }
    Ok(arms)
}

// The operand of a CASE, or what stands behind ELSE, if it is written.
#[cycle(names)]
fn maybe_term<I: InnerQueries, P: Place>(
    alloc: Global,
    inner: &I,
    place: &P,
    tree: &Option<Box<Expr>>,
) -> Result<Option<Term>, Fault>
    ensures { Gives (option_map term) result
        (spec.operand_of (I.answers inner.now) (P.meaning place.now) (maybe_of (option_map (λ e. expr_of e.value) tree.now))) }
{
    match tree {
        None => Ok(None),
        Some(e) => Ok(Some(term(alloc, inner, place, e)?)),
    }
}
