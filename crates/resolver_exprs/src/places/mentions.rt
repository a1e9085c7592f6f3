//! The aggregates of a SELECT.
ghost use Rattle.std.specs.Prelude.{◌≡◌, [], map, OnOk};
ghost use Rattle.std.specs.List.{filter_map};
ghost use Rattle.semantics_names.specs.Places as spec;
ghost use Rattle.semantics_names.specs.Same.{is_same_aggregate};
ghost use Rattle.semantics_names.specs.Statement.{firsts, once_more};
ghost use Rattle.resolver_terms.specs.Outcome.{Gives};
ghost use Rattle.resolver_terms.specs.SelectView.{aggregate_of};
ghost use Rattle.sql_reader_grammar.specs.statement_trees.TreeView.{expr_of};

use crate::expression_names::{InnerQueries, Place};
use crate::places::aggregates::aggregate;
use crate::places::listed::aggregate_place;
use resolver_terms::Aggregate;
use sql_reader_grammar::Expr;
use std::alloc::{AllocError, Global};
use values::Fault;

// Adds an aggregate, unless the same one is there.
fn add_once(aggregates: &mut Vec<Aggregate>, a: Aggregate) -> Result<(), AllocError>
    ensures { OnOk result (map aggregate_of aggregates.new.items
        ≡ once_more (spec.place_of is_same_aggregate (aggregate_of a) (map aggregate_of aggregates.old.items))
        (map aggregate_of aggregates.old.items) (aggregate_of a)) }
{
    match aggregate_place(aggregates.as_slice(), &a) {
        Some(_) => Ok(()),
        None => {
            aggregates.push(a)?;
            Ok(())
        }
    }
}

/// The aggregates among parts of expressions, each where it is first. The fault is that of the first that has one: one of `term`,
/// or `NoMemory`. (Built-in Aggregate Functions)
pub fn first_aggregates<I: InnerQueries, P: Place>(
    alloc: Global,
    inner: &I,
    place: &P,
    parts: &[&Expr],
) -> Result<Vec<Aggregate>, Fault>
    ensures { Gives (λ v. map aggregate_of v.items) result
        (firsts is_same_aggregate []
        (filter_map (spec.aggregate_of (I.answers inner.now) (P.meaning place.now)) (map (λ e. expr_of e.now) parts.now))) }
{
    let mut aggregates = Vec::new(alloc);
    for part in parts {
        let Some(found) = aggregate(alloc, inner, place, part)? else {
            continue;
        };
        add_once(&mut aggregates, found)?;
    }
    Ok(aggregates)
}
