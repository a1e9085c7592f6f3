//! The trees of literals and operators.
ghost use Rattle.sql_reader_exprs.specs.lookahead.ExpressionFronts.{literal_of};
ghost use Rattle.sql_reader_grammar.specs.statement_trees.TreeView.{expr_of, query_of};
ghost use Rattle.std.specs.Prelude.{◌≡◌, IfOk, map};
ghost use Rattle.sql_reader_syntax.specs.ExprTree.{ExprTree, trees_of};

use crate::lookahead::Literal;
use sql_reader_grammar::{Expr, Query};
use sql_reader_syntax::{BinaryOperator, PostfixOperator, PrefixOperator};
use sql_reader_tokens::{blob_content, text_content};
use std::alloc::{AllocError, Global};

pub(crate) fn literal(alloc: Global, value: Literal<'_>) -> Result<Expr, AllocError>
    ensures { IfOk result (λ e. expr_of e ≡ literal_of value.entry) }
{
    match value {
        Literal::Null => Ok(Expr::Null),
        Literal::Number(number) => Ok(Expr::Number(number)),
        Literal::Text(inside) => Ok(Expr::Text(text_content(alloc, inside)?)),
        Literal::Blob(digits) => Ok(Expr::Blob(blob_content(alloc, digits)?)),
    }
}

pub(crate) fn prefix(
    alloc: Global,
    operator: PrefixOperator,
    operand: Expr,
) -> Result<Expr, AllocError>
    ensures { IfOk result (λ e. expr_of e ≡ ExprTree.Prefix operator (expr_of operand)) }
{
    Ok(Expr::Prefix(operator, Box::new(alloc, operand)?))
}

pub(crate) fn postfix(
    alloc: Global,
    operator: PostfixOperator,
    operand: Expr,
) -> Result<Expr, AllocError>
    ensures { IfOk result (λ e. expr_of e ≡ ExprTree.Postfix operator (expr_of operand)) }
{
    Ok(Expr::Postfix(operator, Box::new(alloc, operand)?))
}

pub(crate) fn binary(
    alloc: Global,
    operator: BinaryOperator,
    left: Expr,
    right: Expr,
) -> Result<Expr, AllocError>
    ensures { IfOk result (λ e. expr_of e ≡ ExprTree.Binary operator (expr_of left) (expr_of right)) }
{
    Ok(Expr::Binary(operator, Box::new(alloc, left)?, Box::new(alloc, right)?))
}

pub(crate) fn between(
    alloc: Global,
    negated: bool,
    value: Expr,
    low: Expr,
    high: Expr,
) -> Result<Expr, AllocError>
    ensures { IfOk result (λ e. expr_of e ≡ ExprTree.Between negated (expr_of value) (expr_of low) (expr_of high)) }
{
    Ok(Expr::Between(
        negated,
        Box::new(alloc, value)?,
        Box::new(alloc, low)?,
        Box::new(alloc, high)?,
    ))
}

pub(crate) fn membership(
    alloc: Global,
    negated: bool,
    value: Expr,
    members: Vec<Expr>,
) -> Result<Expr, AllocError>
    ensures { IfOk result (λ e. expr_of e
        ≡ ExprTree.In negated (expr_of value) (trees_of (map expr_of members.items))) }
{
    Ok(Expr::In(negated, Box::new(alloc, value)?, members))
}

pub(crate) fn query_membership(
    alloc: Global,
    negated: bool,
    value: Expr,
    query: Query,
) -> Result<Expr, AllocError>
    ensures { IfOk result (λ e. expr_of e ≡ ExprTree.InQuery negated (expr_of value) (query_of query)) }
{
    Ok(Expr::InQuery(negated, Box::new(alloc, value)?, Box::new(alloc, query)?))
}

pub(crate) fn existence(alloc: Global, query: Query) -> Result<Expr, AllocError>
    ensures { IfOk result (λ e. expr_of e ≡ ExprTree.Exists (query_of query)) }
{
    Ok(Expr::Exists(Box::new(alloc, query)?))
}
