//! What rows are gathered by, and what is computed of each group.
ghost use Rattle.std.specs.Prelude.{◌≡◌, ◌⊎◌, Any, Err, IfErr, IfOk, map};
ghost use Rattle.values.specs.Datum.{Datum, datum_of};
ghost use Rattle.expr.specs.Meaning.{Overflows, eval};
ghost use Rattle.expr.specs.View.{term};
ghost use Rattle.semantics.specs.Valuation.{term_values};

use expr::{Expr, eval};
use resolver_terms::Aggregate;
use std::alloc::Global;
use values::{Fault, Row, Value};

/// The terms of GROUP BY and the aggregates, over the rows that are gathered. (SELECT, "Generation of the set of result rows")
#[derive(Drop)]
pub struct GroupTerms {
    pub by: Vec<Expr>,
    pub aggregates: Vec<Aggregate>,
}

/// The values of GROUP BY on a row, whatever stands for results out of range. Its faults are `Overflow` and `NoMemory`.
pub(crate) fn key_of(alloc: Global, by: &[Expr], row: &[Value]) -> Result<Row, Fault>
    ensures values { IfOk result (λ key. (w : Datum) → key ≡ term_values (eval w) (map term by.now) (map datum_of row.now)) }
    ensures overflow { result ≡ Err Fault.Overflow → Any (λ t. Overflows t (map datum_of row.now)) (map term by.now) }
    ensures only { IfErr result (λ e. (e ≡ Fault.Overflow) ⊎ (e ≡ Fault.NoMemory)) }
{
    let mut key = Row::with_capacity(alloc, by.len())?;
    for term in by {
        key.push(eval(alloc, term, row)?)?;
    }
    Ok(key)
}
