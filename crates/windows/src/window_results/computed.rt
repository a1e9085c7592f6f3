//! What is computed once of a sequence.
ghost use Rattle.std.specs.Prelude.{◌≡◌, ◌⊎◌, Any, Err, IfErr, IfOk, map};
ghost use Rattle.values.specs.Datum.{Datum, datum_of};
ghost use Rattle.expr.specs.Meaning.{Overflows, eval};
ghost use Rattle.expr.specs.View.{term};
ghost use Rattle.semantics.specs.Hits.{function_terms};
ghost use Rattle.windows_groups.specs.window_order.Placed.{rows_in};
ghost use Rattle.windows.specs.window_results.Known.{known_for, known_of, shifted_of};
ghost use Rattle.resolver_terms.specs.SelectView.{function_of};

use crate::window_results::framed::Framed;
use expr::{Expr, eval};
use resolver_terms::WindowFunction;
use std::alloc::Global;
use values::{Fault, Value};
use windows_groups::Sequence;

/// The values along a sequence of which each row gets that of another, and what stands on each where there is no such row.
#[derive(Drop)]
pub struct Shifted {
    pub values: Vec<Value>,
    /// How many rows before or behind.
    pub count: u64,
    pub otherwise: Vec<Value>,
}

/// A function over a window, with what is computed once of a sequence.
#[derive(Drop)]
pub enum Computed {
    OverFrame(Framed),
    RowNumber,
    Rank,
    DenseRank,
    /// The number of buckets.
    NTile(u64),
    Lag(Shifted),
    Lead(Shifted),
}

/// The values of an expression along a sequence. Its faults are `Overflow` and `NoMemory`.
fn values_of(alloc: Global, expression: &Expr, sequence: &Sequence) -> Result<Vec<Value>, Fault>
    ensures values { IfOk result (λ values. (w : Datum) → map datum_of values.items ≡ map (eval w (term expression.now)) (rows_in sequence.now)) }
    ensures overflow { result ≡ Err Fault.Overflow → Any (λ row. Overflows (term expression.now) row) (rows_in sequence.now) }
    ensures only { IfErr result (λ e. (e ≡ Fault.Overflow) ⊎ (e ≡ Fault.NoMemory)) }
{
    let entries = sequence.entries;
    let mut values = Vec::with_capacity(alloc, entries.len())?;
    for entry in entries {
        let value = eval(alloc, expression, entry.row)?;
        values.push(value)?;
    }
    Ok(values)
}

/// The values of an expression and of another, which stands where there is no row. Its faults are `Overflow` and `NoMemory`.
fn shifted_values(
    alloc: Global,
    expression: &Expr,
    count: u64,
    otherwise: &Expr,
    sequence: &Sequence,
) -> Result<Shifted, Fault>
    ensures values { IfOk result (λ s. (w : Datum) → shifted_of s
        ≡ record { values = map (eval w (term expression.now)) (rows_in sequence.now); count = count; otherwise = map (eval w (term otherwise.now)) (rows_in sequence.now) }) }
    ensures overflow { result ≡ Err Fault.Overflow
        → Any (λ row. Overflows (term expression.now) row) (rows_in sequence.now) ⊎ Any (λ row. Overflows (term otherwise.now) row) (rows_in sequence.now) }
    ensures only { IfErr result (λ e. (e ≡ Fault.Overflow) ⊎ (e ≡ Fault.NoMemory)) }
{
    let values = values_of(alloc, expression, sequence)?;
    let otherwise = values_of(alloc, otherwise, sequence)?;
    Ok(Shifted {
        values,
        count,
        otherwise,
    })
}

/// What is computed once of a sequence, for the values of a function at its places. Its faults are `Overflow`, where an argument
/// reaches an operation out of range on a row, and `NoMemory`.
pub fn compute(
    alloc: Global,
    function: &WindowFunction,
    sequence: &Sequence,
) -> Result<Computed, Fault>
    ensures known { IfOk result (λ computed. (w : Datum) → known_of computed ≡ known_for (eval w) (function_of function.now) (rows_in sequence.now)) }
    ensures overflow { result ≡ Err Fault.Overflow → Any (λ row. Any (λ t. Overflows t row) (function_terms (function_of function.now))) (rows_in sequence.now) }
    ensures only { IfErr result (λ e. (e ≡ Fault.Overflow) ⊎ (e ≡ Fault.NoMemory)) }
{
    match function {
        WindowFunction::Aggregate(aggregate) => {
            let values = values_of(alloc, &aggregate.argument, sequence)?;
            let framed = Framed::aggregate(alloc, aggregate.function, values)?;
            Ok(Computed::OverFrame(framed))
        }
        WindowFunction::RowNumber => Ok(Computed::RowNumber),
        WindowFunction::Rank => Ok(Computed::Rank),
        WindowFunction::DenseRank => Ok(Computed::DenseRank),
        WindowFunction::NTile(buckets) => Ok(Computed::NTile(*buckets)),
        WindowFunction::Lag(expression, count, otherwise) => {
            let lagging = shifted_values(alloc, expression, *count, otherwise, sequence)?;
            Ok(Computed::Lag(lagging))
        }
        WindowFunction::Lead(expression, count, otherwise) => {
            let leading = shifted_values(alloc, expression, *count, otherwise, sequence)?;
            Ok(Computed::Lead(leading))
        }
        WindowFunction::FirstValue(expression) => {
            let values = values_of(alloc, expression, sequence)?;
            Ok(Computed::OverFrame(Framed::FirstValue(values)))
        }
        WindowFunction::LastValue(expression) => {
            let values = values_of(alloc, expression, sequence)?;
            Ok(Computed::OverFrame(Framed::LastValue(values)))
        }
        WindowFunction::NthValue(expression, row) => {
            let values = values_of(alloc, expression, sequence)?;
            Ok(Computed::OverFrame(Framed::NthValue(values, *row)))
        }
    }
}
