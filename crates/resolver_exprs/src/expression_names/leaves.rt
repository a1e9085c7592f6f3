//! The terms of expressions that have no operands, and NULL where a term is absent.
ghost use Rattle.std.specs.Prelude.{◌≡◌, option_map};
ghost use Rattle.resolver_exprs.specs.expression_names.Parts as parts;
ghost use Rattle.semantics_names.specs.Expression as spec;
ghost use Rattle.semantics_names.specs.Outcome.{also};
ghost use Rattle.resolver_terms.specs.Outcome.{Gives};
ghost use Rattle.expr.specs.View.{term};
ghost use Rattle.sql_reader_grammar.specs.statement_trees.TreeView.{expr_of, query_of};

use crate::expression_names::InnerQueries;
use crate::expression_nodes as nodes;
use expr::Expr as Term;
use sql_reader_grammar::{Expr, Query};
use std::alloc::Global;
use values::{Fault, Value, ValueRef};

/// The term of an expression without operands: a literal, or EXISTS. The fault is one of the inner queries; `WrongPlace` of
/// any other expression; or `NoMemory`. (SQL Language Expressions, "Literal Values", "The EXISTS Operator")
pub(crate) fn without_operands<I: InnerQueries>(
    alloc: Global,
    inner: &I,
    tree: &Expr,
) -> Result<Term, Fault>
    ensures { Gives term result (parts.without_operands (I.answers inner.now) (expr_of tree.now)) }
{
    match tree {
        Expr::Null => Ok(Term::Literal(Value::Null)),
        Expr::Number(number) => Ok(Term::Literal(Value::Int(*number))),
        Expr::Text(content) => Ok(Term::Literal(ValueRef::Text(content.as_str()).to_value(alloc)?)),
        Expr::Blob(bytes) => Ok(Term::Literal(ValueRef::Blob(bytes.as_slice()).to_value(alloc)?)),
        Expr::Exists(query) => Ok(nodes::exists(alloc, inner.exists(alloc, query)?)?),
        _ => Err(Fault::WrongPlace),
    }
}

/// `x IN (query)`, or NOT IN. The fault is one of the inner queries, or `NoMemory`. (SQL Language Expressions, "The IN and NOT
/// IN Operators")
pub(crate) fn among_answer<I: InnerQueries>(
    alloc: Global,
    inner: &I,
    not: bool,
    x: Term,
    query: &Query,
) -> Result<Term, Fault>
    ensures { Gives term result
        (also (spec.among_answer not (term x)) (I.answers inner.now (spec.InnerTree.values_in (query_of query.now)))) }
{
    let answer = inner.values(alloc, query)?;
    Ok(nodes::among_answer(alloc, not, x, answer)?)
}

/// This term, and NULL where there is none.
pub(crate) fn or_null(t: Option<Term>) -> Term
    ensures { term result ≡ parts.or_null (option_map term t) }
{
    t.unwrap_or(Term::Literal(Value::Null))
}
