//! ON and USING.
ghost use Rattle.std.specs.Prelude.{map, string_bytes};
ghost use Rattle.semantics_names.specs.Expression.{Answers};
ghost use Rattle.semantics_names.specs.Sources as spec;
ghost use Rattle.resolver_terms.specs.Outcome.{Gives};
ghost use Rattle.resolver_sources.specs.source_names.GivenView.{condition_of};
ghost use Rattle.sql_reader_grammar.specs.statement_trees.TreeView.{expr_of, on_of};
ghost use Rattle.sql_reader_syntax.specs.ExprTree.{OnTree};

use crate::source_names::using::using;
use expr::Expr as Term;
use resolver_exprs::{Columns, InnerQueries, Scope, term};
use sql_reader_grammar::{Expr, JoinCondition};
use std::alloc::Global;
use values::{Fault, Value};

/// The columns that both sides of a join show, and its condition.
#[derive(Drop)]
pub(crate) struct Condition {
    pub(crate) scope: Scope,
    pub(crate) term: Term,
}

// ON, which sees the columns of the sources up to its own. The fault is one of `term`.
fn on<I: InnerQueries>(
    alloc: Global,
    inner: &I,
    left: Scope,
    right: Scope,
    e: &Expr,
) -> Result<Condition, Fault>
    ensures { Gives condition_of result (spec.joined_on (I.answers inner.now) (OnTree.On (expr_of e.now)) left right) }
{
    let mut scope = left;
    scope.append(right)?;
    let term = term(alloc, inner, &Columns { scope: &scope }, e)?;
    Ok(Condition { scope, term })
}

// USING. The fault is one of `using`.
fn equal_names(
    alloc: Global,
    left: Scope,
    right: Scope,
    names: &[String],
) -> Result<Condition, Fault>
    ensures { (answers : Answers) → Gives condition_of result
        (spec.joined_on answers (OnTree.Using (map (λ n. string_bytes n) names.now)) left right) }
{
    let mut scope = left;
    let term = using(alloc, &mut scope, right, names)?;
    Ok(Condition { scope, term })
}

/// The columns that both sides of a join show, and its condition. The fault is one of `term`; of USING `UnknownColumn` where a side
/// has no column of a name, `Ambiguous` where it has two; or `NoMemory`. (SELECT, "Determination of input data")
pub(crate) fn joined_on<I: InnerQueries>(
    alloc: Global,
    inner: &I,
    condition: &JoinCondition,
    left: Scope,
    right: Scope,
) -> Result<Condition, Fault>
    ensures { Gives condition_of result (spec.joined_on (I.answers inner.now) (on_of condition.now) left right) }
{
    match condition {
        JoinCondition::Always => {
            let mut scope = left;
            scope.append(right)?;
            let term = Term::Literal(Value::Int(1));
            Ok(Condition { scope, term })
        }
        JoinCondition::On(e) => on(alloc, inner, left, right, e),
        JoinCondition::Using(names) => equal_names(alloc, left, right, names),
    }
}
