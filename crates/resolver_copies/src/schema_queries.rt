//! Whole queries over the schema table as one more table.
ghost use Rattle.std.specs.Prelude.{◌≡◌, IfOk};
ghost use Rattle.semantics_rewrites.specs.schema_sources.Settled.{settled};
ghost use Rattle.resolver_bodies.specs.NamedView.{query_data};

use crate::schema_bodies::settle_body;
use resolver_bodies::{Query, copy_body};
use resolver_terms::copy_order;
use std::alloc::{AllocError, Global};

/// A copy of a query in which the table at this place stands wherever the schema's table is named. (SELECT; The Schema Table)
pub fn with_schema_query(alloc: Global, place: usize, query: &Query) -> Result<Query, AllocError>
    ensures { IfOk result (λ copy. query_data copy ≡ settled place (query_data query.now)) }
{
    let mut body = copy_body(alloc, &query.body)?;
    settle_body(place, &mut body);
    let order = copy_order(alloc, query.order.as_slice())?;
    Ok(Query {
        body,
        order,
        limit: query.limit,
        offset: query.offset,
    })
}
