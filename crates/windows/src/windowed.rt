//! Rows followed by the values of calls on them.
ghost use Rattle.std.specs.Prelude.{◌≡◌, ◌⊎◌, ◌++◌, Any, Err, IfErr, IfOk, OnOk, length, map};
ghost use Rattle.values.specs.Datum.{Datum, datum_of};
ghost use Rattle.expr.specs.Meaning.{eval};
ghost use Rattle.semantics.specs.Sequence.{value_at};
ghost use Rattle.semantics.specs.Windows.{windowed};
ghost use Rattle.windows.specs.Wanted.{IsReachedBy};
ghost use Rattle.resolver_terms.specs.SelectView.{call_of};

use crate::evaluated::evaluate_all;
use resolver_terms::WindowCall;
use std::alloc::{AllocError, Global};
use values::{Fault, Value};

/// A copy of the value at a place of a column, and NULL past its end.
fn value_at_place(alloc: Global, column: &[Value], at: usize) -> Result<Value, AllocError>
    ensures { IfOk result (λ value. datum_of value ≡ value_at (map datum_of column.now) at) }
{
    match column.get(at) {
        Some(value) => value.as_ref().to_value(alloc),
        None => Ok(Value::Null),
    }
}

/// Puts the value that stands at a place of each column at the end of a row.
fn push_values(
    alloc: Global,
    columns: &[Vec<Value>],
    at: usize,
    row: &mut Vec<Value>,
) -> Result<(), AllocError>
    ensures { OnOk result (map datum_of row.new.items
        ≡ map datum_of row.old.items ++ map (λ column. value_at column at) (map (λ column. map datum_of column.items) columns.now)) }
{
    for column in columns {
        let value = value_at_place(alloc, column.as_slice(), at)?;
        row.push(value)?;
    }
    Ok(())
}

/// The rows, each with the value of each call behind it, in the order in which they are given. Its faults are `Overflow`, where an
/// expression of a call reaches an operation out of range on a row or the number of a call leaves 64 bits, and `NoMemory`.
pub fn windowed_rows(
    alloc: Global,
    calls: &[WindowCall],
    rows: Vec<Vec<Value>>,
) -> Result<Vec<Vec<Value>>, Fault>
    ensures rows { IfOk result (λ whole. (w : Datum) → map (λ row. map datum_of row.items) whole.items
        ≡ windowed (eval w) w (map call_of calls.now) (map (λ row. map datum_of row.items) rows.items)) }
    ensures size { IfOk result (λ whole. length whole.items ≡ length rows.items) }
    ensures overflow { result ≡ Err Fault.Overflow → Any (λ call. IsReachedBy call (map (λ row. map datum_of row.items) rows.items)) (map call_of calls.now) }
    ensures only { IfErr result (λ e. (e ≡ Fault.Overflow) ⊎ (e ≡ Fault.NoMemory)) }
{
    let columns = evaluate_all(alloc, calls, rows.as_slice())?;
    let mut whole = Vec::with_capacity(alloc, rows.len())?;
    for given in rows {
        let mut row = given;
        push_values(alloc, columns.as_slice(), whole.len(), &mut row)?;
        whole.push(row)?;
    }
    Ok(whole)
}
