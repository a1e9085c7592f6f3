//! WHERE, HAVING and GROUP BY.
ghost use Rattle.std.specs.Prelude.{map, option_map};
ghost use Rattle.semantics_names.specs.Statement as spec;
ghost use Rattle.resolver_terms.specs.Outcome.{Gives};
ghost use Rattle.expr.specs.View.{term};
ghost use Rattle.sql_reader_syntax.specs.ExprView.{maybe_of};
ghost use Rattle.sql_reader_grammar.specs.statement_trees.TreeView.{expr_of};
ghost use Rattle.sql_reader_syntax.specs.ExprTree.{trees_of};

use expr::Expr as Term;
use resolver_exprs::{Columns, InnerQueries, Place, Scope, number_alone, term};
use sql_reader_grammar::Expr;
use std::alloc::Global;
use values::{Fault, Value};

/// The condition of WHERE or HAVING; where none is written, one that every row keeps. The fault is one of `term`. (SELECT)
pub fn condition<I: InnerQueries, P: Place>(
    alloc: Global,
    inner: &I,
    place: &P,
    tree: &Option<Expr>,
) -> Result<Term, Fault>
    ensures { Gives term result
        (spec.condition_of (I.answers inner.now) (P.meaning place.now) (maybe_of (option_map expr_of tree.now))) }
{
    match tree {
        None => Ok(Term::Literal(Value::Int(1))),
        Some(e) => term(alloc, inner, place, e),
    }
}

// An expression of GROUP BY; a number alone is at a wrong place.
fn key<I: InnerQueries>(alloc: Global, inner: &I, scope: &Scope, e: &Expr) -> Result<Term, Fault>
    ensures { Gives term result (spec.group_term (I.answers inner.now) scope.now (expr_of e.now)) }
{
    match number_alone(e) {
        Some(_) => Err(Fault::WrongPlace),
        None => term(alloc, inner, &Columns { scope }, e),
    }
}

/// The expressions of GROUP BY. The fault is one of `term`, or `WrongPlace` of a number alone. (SELECT)
pub fn keys<I: InnerQueries>(
    alloc: Global,
    inner: &I,
    scope: &Scope,
    groups: &[Expr],
) -> Result<Vec<Term>, Fault>
    ensures { Gives (λ v. map term v.items) result
        (spec.by_of (I.answers inner.now) scope.now (trees_of (map expr_of groups.now))) }
{
    let mut keys = Vec::new(alloc);
    for e in groups {
        let next = key(alloc, inner, scope, e)?;
        keys.push(next)?;
    }
    Ok(keys)
}
