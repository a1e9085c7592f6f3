//! The columns of both sides that USING names.
ghost use Rattle.std.specs.Prelude.{◌≡◌, ◌++◌, IfOk, map, option_map, string_bytes};
ghost use Rattle.semantics_names.specs.Outcome.{also};
ghost use Rattle.semantics_names.specs.Sources as spec;
ghost use Rattle.resolver_terms.specs.Outcome.{Gives};
ghost use Rattle.expr.specs.View.{term};
ghost use Rattle.resolver_exprs.specs.scopes.Using.{all_hidden};
ghost use Rattle.resolver_sources.specs.source_names.Matched.{and_then, condition, matched, one_matched};

use expr::Expr;
use resolver_exprs::{Scope, bare_term, binary};
use sql_reader_syntax::BinaryOperator;
use std::alloc::{AllocError, Global};
use values::{Fault, Value};

// The equality of the columns of both sides, which look at these places.
fn equal(alloc: Global, left: &[usize], right: &[usize]) -> Result<Expr, AllocError>
    ensures { IfOk result (λ t. term t ≡ spec.equal left.now right.now) }
{
    let left = bare_term(alloc, left)?;
    let right = bare_term(alloc, right)?;
    binary(alloc, BinaryOperator::Equal, left, right)
}

// The equality that a name says. The column of the left side looks at the places of both.
fn matching(alloc: Global, left: &mut Scope, theirs: &Scope, name: &str) -> Result<Expr, Fault>
    ensures { Gives (λ t. (left.new, term t)) result (one_matched theirs.now left.old name.now) }
{
    let mine = left.places(name)?;
    let places = theirs.places(name)?;
    let equality = equal(alloc, mine.as_slice(), places.as_slice())?;
    left.merge(name, places.as_slice())?;
    Ok(equality)
}

// The equalities that the names say.
fn equalities(
    alloc: Global,
    left: &mut Scope,
    theirs: &Scope,
    names: &[String],
) -> Result<Vec<Expr>, Fault>
    ensures { Gives (λ v. (left.new, map term v.items)) result
        (matched theirs.now left.old (map (λ n. string_bytes n) names.now)) }
{
    let mut equalities = Vec::new(alloc);
    for name in names {
        let equality = matching(alloc, left, theirs, name.as_str())?;
        equalities.push(equality)?;
    }
    Ok(equalities)
}

// The names are no longer those of columns of the right side.
fn hide(right: &mut Scope, names: &[String])
    ensures { right.new ≡ all_hidden (map (λ n. string_bytes n) names.now) right.old }
{
    for name in names {
        right.hide(name.as_str());
    }
}

// A further condition, behind those before it.
fn and(alloc: Global, all: Option<Expr>, next: Expr) -> Result<Expr, AllocError>
    ensures { IfOk result (λ t. term t ≡ and_then (option_map term all) (term next)) }
{
    match all {
        None => Ok(next),
        Some(all) => binary(alloc, BinaryOperator::And, all, next),
    }
}

// All of these conditions.
fn conjunction(alloc: Global, terms: Vec<Expr>) -> Result<Expr, AllocError>
    ensures { IfOk result (λ t. term t ≡ spec.conjunction (map term terms.items)) }
{
    let mut all: Option<Expr> = None;
    for next in terms {
        all = Some(and(alloc, all, next)?);
    }
    Ok(all.unwrap_or(Expr::Literal(Value::Int(1))))
}

/// The columns that both sides of a join with USING show, and its condition. The fault is `UnknownColumn` where a side has no column
/// of a name, `Ambiguous` where it has two, or `NoMemory`. (SELECT, "Determination of input data")
pub(crate) fn using(
    alloc: Global,
    left: &mut Scope,
    right: Scope,
    names: &[String],
) -> Result<Expr, Fault>
    ensures { Gives (λ t. condition left.new (term t)) result
        (also (λ u. condition (u.left ++ u.right) (spec.conjunction u.equalities))
        (spec.used right left.old right (map (λ n. string_bytes n) names.now))) }
{
    let mut right = right;
    let equalities = equalities(alloc, left, &right, names)?;
    let condition = conjunction(alloc, equalities)?;
    hide(&mut right, names);
    left.append(right)?;
    Ok(condition)
}
