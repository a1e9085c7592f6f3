//! A query with its ORDER BY.
ghost use Rattle.std.specs.Prelude.{◌≡◌, map, option_map};
ghost use Rattle.resolver_bodies.specs.BodyView.{body_of, single_of};
ghost use Rattle.resolver_types.specs.body_types.RowView.{row_of};
ghost use Rattle.semantics.specs.Query.{QueryData};
ghost use Rattle.semantics_names.specs.Outcome.{also, each};
ghost use Rattle.semantics_names.specs.Types as spec;
ghost use Rattle.resolver_terms.specs.Outcome.{Gives};
ghost use Rattle.resolver.specs.query_types.Keys.{key_over, rows_behind};
ghost use Rattle.resolver.specs.query_types.Ordered.{ordered_compound, ordered_single, ordered_types};
ghost use Rattle.resolver_terms.specs.SelectView.{key_of};

use crate::query_types::keys::check_keys;
use resolver_bodies::{Body, Single};
use resolver_terms::Key;
use resolver_types::body_types::body_types;
use resolver_types::{Row, column_types, computed_row};
use std::alloc::Global;
use values::{Fault, Ty};

// The rows that expressions of ORDER BY stand over; behind DISTINCT there are none.
fn rows_behind(distinct: bool, over: &Row) -> Option<&Row>
    ensures { option_map (λ r. row_of r.now) result ≡ rows_behind distinct (row_of over.now) }
{
    if distinct { None } else { Some(over) }
}

// These types, where each key behind them has one. The fault is one of `check_keys`.
fn in_order(over: Option<&Row>, types: Vec<Ty>, order: &[Key]) -> Result<Vec<Ty>, Fault>
    ensures { Gives (λ v. v.items) result (also (λ done. types.items)
        (each (λ k. key_over (option_map (λ r. row_of r.now) over.entry) types.items k.by) (map key_of order.now))) }
{
    check_keys(over, types.as_slice(), order)?;
    Ok(types)
}

// The types of the result columns of a SELECT in this order. The fault is one of `body_types` and of `in_order`.
fn single_types(
    alloc: Global,
    tables: &[Vec<Ty>],
    single: &Single,
    order: &[Key],
) -> Result<Vec<Ty>, Fault>
    ensures { Gives (λ v. v.items) result (ordered_single (map (λ t. t.items) tables.now)
        (single_of single.now).from (single_of single.now).select (map key_of order.now)) }
{
    let over = computed_row(alloc, tables, single)?;
    let types = column_types(alloc, &over, &single.select)?;
    in_order(rows_behind(single.select.distinct, &over), types, order)
}

// The types of the result columns of SELECTs that are joined, in this order. The fault is one of `body_types` and of `in_order`.
fn compound_types(
    alloc: Global,
    tables: &[Vec<Ty>],
    body: &Body,
    order: &[Key],
) -> Result<Vec<Ty>, Fault>
    ensures { Gives (λ v. v.items) result (ordered_compound (map (λ t. t.items) tables.now) (body_of body.now) (map key_of order.now)) }
{
    let types = body_types(alloc, tables, body)?;
    in_order(None, types, order)
}

// The types of the result columns of a query in this order. The fault is one of `query_types`.
fn types_in_order(
    alloc: Global,
    tables: &[Vec<Ty>],
    body: &Body,
    order: &[Key],
) -> Result<Vec<Ty>, Fault>
    ensures { Gives (λ v. v.items) result (ordered_types (map (λ t. t.items) tables.now) (body_of body.now) (map key_of order.now)) }
{
    match body {
        Body::Select(single) => single_types(alloc, tables, single, order),
        Body::Compound(..) => compound_types(alloc, tables, body, order),
    }
}

/// The types of the result columns of a query, over tables whose columns have these types; its LIMIT and OFFSET are numbers by
/// themselves. The fault is one of `body_types`; `TypeMismatch` of a key that has no type; `WrongPlace` of a key that is an
/// expression, behind DISTINCT or SELECTs that are joined; or `NoMemory`. (SELECT; STRICT Tables)
pub fn query_types(
    alloc: Global,
    tables: &[Vec<Ty>],
    body: &Body,
    order: &[Key],
) -> Result<Vec<Ty>, Fault>
    ensures { (query : QueryData) → query.body ≡ body_of body.now → query.order ≡ map key_of order.now
        → Gives (λ v. v.items) result (spec.query_types (map (λ t. t.items) tables.now) query) }
{
    types_in_order(alloc, tables, body, order)
}
