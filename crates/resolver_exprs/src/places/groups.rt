//! The place of expressions over the rows of groups.
ghost use Rattle.std.specs.Prelude.{length, map, option_map};
ghost use Rattle.semantics_names.specs.Places as spec;
ghost use Rattle.resolver_terms.specs.Outcome.{Gives};
ghost use Rattle.resolver_terms.specs.SelectView.{aggregate_of};
ghost use Rattle.expr.specs.View.{term};
ghost use Rattle.sql_reader_grammar.specs.statement_trees.TreeView.{expr_of};

use crate::expression_names::{InnerQueries, Place, term};
use crate::places::aggregates::aggregate;
use crate::places::columns::{Columns, column};
use crate::places::listed::{aggregate_place, term_place};
use crate::scopes::Scope;
use expr::Expr as Term;
use resolver_terms::Aggregate;
use sql_reader_grammar::Expr;
use std::alloc::Global;
use values::Fault;

/// Where expressions speak of the rows of groups: HAVING, and what is computed after it. (SELECT, "Generation of the set of
/// result rows")
#[derive(Clone, Copy)]
pub struct Groups<'a, I> {
    /// The queries inside the expressions of the SELECT.
    pub inner: &'a I,
    /// The columns that FROM shows.
    pub scope: &'a Scope,
    /// The expressions of GROUP BY.
    pub by: &'a [Term],
    /// The aggregates, in the order of their first mention.
    pub aggregates: &'a [Aggregate],
}

// The column of an aggregate, behind those of GROUP BY.
fn aggregate_column<I: InnerQueries>(
    alloc: Global,
    groups: &Groups<'_, I>,
    part: &Expr,
) -> Result<Option<Term>, Fault>
    ensures { Gives (option_map term) result
        (spec.aggregate_column (length (map term groups.now.by.now)) (map aggregate_of groups.now.aggregates.now)
        (spec.aggregate_of (I.answers groups.now.inner.now) (spec.columns_say groups.now.scope.now) (expr_of part.now))) }
{
    let columns = Columns {
        scope: groups.scope,
    };
    let Some(found) = aggregate(alloc, groups.inner, &columns, part)? else {
        return Ok(None);
    };
    match aggregate_place(groups.aggregates, &found) {
        Some(at) => Ok(Some(Term::Column(groups.by.len() + at))),
        None => Ok(None),
    }
}

// A column of FROM is bare here, if it is one at all.
fn beside_keys<I: InnerQueries>(
    alloc: Global,
    groups: &Groups<'_, I>,
    part: &Expr,
) -> Result<Option<Term>, Fault>
    ensures { Gives (option_map term) result
        (spec.beside_keys (I.answers groups.now.inner.now) groups.now.scope.now (map term groups.now.by.now)
        (map aggregate_of groups.now.aggregates.now) (expr_of part.now)) }
{
    match part {
        Expr::Column(table, name) => {
            column(alloc, groups.scope, table, name)?;
            Err(Fault::BareColumn)
        }
        Expr::CountRows(_) | Expr::Call(_, _, _) => aggregate_column(alloc, groups, part),
        _ => Ok(None),
    }
}

impl<'a, I: InnerQueries> Place for Groups<'a, I> {
    ghost use Rattle.std.specs.Prelude.{map};
    ghost use Rattle.semantics_names.specs.Places.{groups_say};
    ghost use Rattle.resolver_terms.specs.SelectView.{aggregate_of};
    ghost use Rattle.expr.specs.View.{term};

    ghost meaning = { λ place.
        groups_say (I.answers place.inner.now) place.scope.now (map term place.by.now) (map aggregate_of place.aggregates.now) };

    fn says(&self, alloc: Global, part: &Expr) -> Result<Option<Term>, Fault> {
        match term(alloc, self.inner, &Columns { scope: self.scope }, part) {
            Ok(t) => match term_place(self.by, &t) {
                Some(at) => Ok(Some(Term::Column(at))),
                None => beside_keys(alloc, self, part),
            },
            Err(Fault::NoMemory) => Err(Fault::NoMemory),
            Err(_) => beside_keys(alloc, self, part),
        }
    }
}
