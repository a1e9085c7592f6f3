//! The queries inside the expressions of a SELECT.
ghost use Rattle.std.specs.Prelude.{◌≡◌, IfOk, map};
ghost use Rattle.std.specs.List.{filter_map, flat_map};
ghost use Rattle.resolver_bodies.specs.BodyView.{body_of, inner_of};
ghost use Rattle.sql_reader_grammar.specs.Reading.{terms_of};
ghost use Rattle.resolver_sources.specs.inner_names.InnerNames.{inner_by};
ghost use Rattle.resolver_sources.specs.inner_names.InnerView.{asked_of, inner_data};
ghost use Rattle.semantics_names.specs.Outcome.{each};
ghost use Rattle.semantics_names.specs.Parts.{inner_tree, inner_trees};
ghost use Rattle.resolver_terms.specs.Outcome.{Gives};
ghost use Rattle.sql_reader_grammar.specs.statement_trees.TreeView.{core_of, expr_of, term_of};

use crate::from_names::Queries;
use crate::inner_names::resolved::{Inner, resolved};
use crate::inner_names::written::{Asked, inside};
use resolver_bodies::{Body, InnerQuery};
use resolver_exprs::core_parts;
use sql_reader_grammar::{Expr, OrderingTerm, SelectCore};
use std::alloc::{AllocError, Global};
use values::Fault;

// Those that stand in parts of expressions, as they are written.
fn asked_in<'a>(alloc: Global, parts: &[&'a Expr]) -> Result<Vec<Asked<'a>>, AllocError>
    ensures { IfOk result (λ v. map asked_of v.items ≡ filter_map inner_tree (map (λ e. expr_of e.now) parts.now)) }
{
    let mut found = Vec::new(alloc);
    for part in parts {
        if let Some(asked) = inside(part) {
            found.push(asked)?;
        }
    }
    Ok(found)
}

/// The queries inside the expressions of a SELECT, and of its ORDER BY, as they are written. (SQL Language Expressions, "The IN and
/// NOT IN Operators", "The EXISTS Operator")
pub fn asked_queries<'a>(
    alloc: Global,
    core: &'a SelectCore,
    order: &'a [OrderingTerm],
) -> Result<Vec<Asked<'a>>, AllocError>
    ensures { IfOk result (λ v. map asked_of v.items ≡ inner_trees (core_of core.now) (terms_of (map term_of order.now))) }
{
    let parts = core_parts(alloc, core, order)?;
    asked_in(alloc, parts.as_slice())
}

/// These queries by their names. The fault is one of a query; `ColumnCount` where the query of an IN has not one column; or
/// `NoMemory`.
pub fn inner_queries<Q: Queries>(
    alloc: Global,
    queries: &Q,
    asked: &[Asked<'_>],
) -> Result<Vec<Inner>, Fault>
    requires { Q.resolves queries.now }
    ensures { Gives (λ v. map inner_data v.items) result (each (inner_by (Q.meaning queries.now)) (map asked_of asked.now)) }
{
    let mut found = Vec::with_capacity(alloc, asked.len())?;
    for one in asked {
        let inner = resolved(alloc, queries, *one)?;
        found.push(inner)?;
    }
    Ok(found)
}

/// The queries alone, and all that stands beside them.
pub fn split(alloc: Global, inner: Vec<Inner>) -> Result<(Vec<InnerQuery>, Vec<Body>), AllocError>
    ensures { IfOk result (λ r. (map inner_of r.0.items ≡ map (λ i. i.query) (map inner_data inner.items))
        × (map body_of r.1.items ≡ flat_map (λ i. i.beside) (map inner_data inner.items))) }
{
    let mut queries = Vec::new(alloc);
    let mut beside = Vec::new(alloc);
    for one in inner {
        let mut written = one.beside;
        queries.push(one.query)?;
        beside.append(&mut written)?;
    }
    Ok((queries, beside))
}
