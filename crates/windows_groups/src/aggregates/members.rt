//! The aggregates of a group.
ghost use Rattle.std.specs.Prelude.{◌≡◌, ◌⊎◌, ◌++◌, [], ◌∷◌, Any, Err, IfErr, IfOk, OnOk, List, map, None};
ghost use Rattle.values.specs.Datum.{Datum, datum_of};
ghost use Rattle.values.specs.Row.{Row};
ghost use Rattle.expr.specs.Meaning.{Overflows, eval};
ghost use Rattle.semantics.specs.Groups.{aggregate_result, aggregate_value};
ghost use Rattle.semantics.specs.Query as query;
ghost use Rattle.windows_groups.specs.aggregates.State.{state_of, states_after};
ghost use Rattle.resolver_terms.specs.SelectView.{aggregate_of};

use crate::aggregates::Accumulator;
use expr::eval;
use resolver_terms::Aggregate;
use std::alloc::{AllocError, Global};
use values::{Fault, Value};

/// The aggregates of no rows.
pub fn first_states(alloc: Global, aggregates: &[Aggregate]) -> Result<Vec<Accumulator>, AllocError>
    ensures { IfOk result (λ states. (w : Datum) → map state_of states.items ≡ states_after w (map aggregate_of aggregates.now) []) }
{
    let mut states = Vec::with_capacity(alloc, aggregates.len())?;
    for aggregate in aggregates {
        states.push(Accumulator::new(aggregate.function))?;
    }
    Ok(states)
}

/// Goes on by a row of the group, whatever stands for results out of range; there is a state for each aggregate. Its faults are `Overflow`, where an argument
/// reaches an operation out of range, and `NoMemory`.
pub fn add_row(
    alloc: Global,
    aggregates: &[Aggregate],
    states: &mut [Accumulator],
    row: &[Value],
) -> Result<(), Fault>
    ensures states { OnOk result ((w : Datum) (rows : List Row) → map state_of states.old ≡ states_after w (map aggregate_of aggregates.now) rows
        → map state_of states.new ≡ states_after w (map aggregate_of aggregates.now) (rows ++ map datum_of row.now ∷ [])) }
    ensures overflow { result ≡ Err Fault.Overflow → Any (λ a. Overflows a.argument (map datum_of row.now)) (map aggregate_of aggregates.now) }
    ensures only { IfErr result (λ e. (e ≡ Fault.Overflow) ⊎ (e ≡ Fault.NoMemory)) }
{
    let count = aggregates.len().min(states.len());
    for at in 0..count {
        let value = eval(alloc, &aggregates[at].argument, row)?;
        states[at].add(value)?;
    }
    Ok(())
}

/// Puts the values of the aggregates behind others. `Overflow` comes only where one of them leaves 64 bits; the one other fault
/// is `NoMemory`.
pub fn push_values(alloc: Global, states: &[Accumulator], out: &mut Vec<Value>) -> Result<(), Fault>
    ensures values { OnOk result ((w : Datum) (asked : List query.Aggregate) (rows : List Row) → map state_of states.now ≡ states_after w asked rows
        → map datum_of out.new.items ≡ map datum_of out.old.items ++ map (aggregate_value (eval w) w rows) asked) }
    ensures overflow { result ≡ Err Fault.Overflow → (w : Datum) (asked : List query.Aggregate) (rows : List Row) → map state_of states.now ≡ states_after w asked rows
        → Any (λ a. aggregate_result (eval w) None a rows ≡ None) asked }
    ensures only { IfErr result (λ e. (e ≡ Fault.Overflow) ⊎ (e ≡ Fault.NoMemory)) }
{
    for state in states {
        out.push(state.value(alloc)?)?;
    }
    Ok(())
}
