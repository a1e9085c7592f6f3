//! The values of an inner query.
ghost use Rattle.std.specs.Prelude.{◌≡◌, IfOk, map};
ghost use Rattle.values.specs.Datum.{datum_of};
ghost use Rattle.semantics.specs.Body.{one_if_some};
ghost use Rattle.semantics.specs.Sequence.{value_at};
ghost use Rattle.resolver_bodies.specs.BodyView.{inner_of};
ghost use Rattle.resolver_copies.specs.materialized_bodies.FlatView.{lists_of};
ghost use Rattle.semantics_rewrites.specs.materialized_queries.FlatWith.{answer_from};

use resolver_bodies::InnerQuery;
use std::alloc::{AllocError, Global};
use values::Value;

// The first value of a row, or NULL where it has none.
fn first_value(row: Vec<Value>) -> Value
    ensures { datum_of result ≡ value_at (map datum_of row.items) 0 }
{
    let mut values = row;
    if values.is_empty() {
        return Value::Null;
    }
    values.remove(0)
}

fn first_values(alloc: Global, rows: Vec<Vec<Value>>) -> Result<Vec<Value>, AllocError>
    ensures { IfOk result (λ v. map datum_of v.items ≡ map (λ row. value_at row 0) (lists_of rows.items)) }
{
    let mut values = Vec::new(alloc);
    for row in rows {
        values.push(first_value(row))?;
    }
    Ok(values)
}

// A 1 where there is a row.
fn one_if_some(alloc: Global, rows: &[Vec<Value>]) -> Result<Vec<Value>, AllocError>
    ensures { IfOk result (λ v. map datum_of v.items ≡ one_if_some (lists_of rows.now)) }
{
    let mut values = Vec::new(alloc);
    if !rows.is_empty() {
        values.push(Value::Int(1))?;
    }
    Ok(values)
}

/// The values of an inner query, from the rows of what it computes: those of its one column, or a 1 where EXISTS has a row. (SQL
/// Language Expressions, "The IN and NOT IN Operators", "The EXISTS Operator")
pub fn answer(
    alloc: Global,
    query: &InnerQuery,
    rows: Vec<Vec<Value>>,
) -> Result<Vec<Value>, AllocError>
    ensures { IfOk result (λ v. map datum_of v.items ≡ answer_from (inner_of query.now) (lists_of rows.items)) }
{
    match query {
        InnerQuery::Values(_) => first_values(alloc, rows),
        InnerQuery::Exists(_) => one_if_some(alloc, rows.as_slice()),
    }
}
