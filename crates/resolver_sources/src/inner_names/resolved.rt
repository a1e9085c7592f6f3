//! A query inside an expression, by its names.
ghost use Rattle.std.specs.Prelude.{◌≡◌, IfOk};
ghost use Rattle.resolver_sources.specs.inner_names.InnerNames.{inner_by};
ghost use Rattle.resolver_sources.specs.inner_names.InnerView.{asked_of, inner_data};
ghost use Rattle.semantics_names.specs.Statement as spec;
ghost use Rattle.resolver_terms.specs.Outcome.{Gives};
ghost use Rattle.resolver_sources.specs.source_names.GivenView.{queried_of};

use crate::from_names::Queries;
use crate::inner_names::written::Asked;
use crate::source_names::Queried;
use resolver_bodies::{Body, InnerQuery};
use std::alloc::{AllocError, Global};
use values::Fault;

/// A query inside an expression, by its names. (SQL Language Expressions, "The IN and NOT IN Operators", "The EXISTS Operator")
#[derive(Drop)]
pub struct Inner {
    pub query: InnerQuery,
    /// What else is written in it and has to be typed by itself.
    pub beside: Vec<Body>,
}

// IN takes the values of one column. The fault is `ColumnCount` where there are not one, or `NoMemory`.
fn values(alloc: Global, query: Queried) -> Result<Inner, Fault>
    ensures { Gives inner_data result (spec.values_inner (queried_of query)) }
{
    if query.names.len() != 1 {
        return Err(Fault::ColumnCount);
    }
    Ok(Inner {
        query: InnerQuery::Values(Box::new(alloc, query.body)?),
        beside: query.beside,
    })
}

fn exists(alloc: Global, query: Queried) -> Result<Inner, AllocError>
    ensures { IfOk result (λ i. inner_data i ≡ spec.exists_inner (queried_of query)) }
{
    Ok(Inner {
        query: InnerQuery::Exists(Box::new(alloc, query.body)?),
        beside: query.beside,
    })
}

/// A query inside an expression, by its names. The fault is one of the query; `ColumnCount` where IN has not one column; or
/// `NoMemory`.
pub(crate) fn resolved<Q: Queries>(
    alloc: Global,
    queries: &Q,
    asked: Asked<'_>,
) -> Result<Inner, Fault>
    requires { Q.resolves queries.now }
    ensures { Gives inner_data result (inner_by (Q.meaning queries.now) (asked_of asked.entry)) }
{
    match asked {
        Asked::Values(query) => values(alloc, queries.query(alloc, query)?),
        Asked::Exists(query) => {
            let query = queries.query(alloc, query)?;
            Ok(exists(alloc, query)?)
        }
    }
}
