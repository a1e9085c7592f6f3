//! Result columns on a row.
ghost use Rattle.std.specs.Prelude.{◌≡◌, ◌⊎◌, ◌≤◌, ◌+◌, ◌++◌, ◌∷◌, [], Err, IfErr, IfOk, length, map, take};
ghost use Rattle.values.specs.Datum.{Datum, datum_of};
ghost use Rattle.expr.specs.Meaning.{Overflows, eval};
ghost use Rattle.expr.specs.View.{term};
ghost use Rattle.semantics.specs.Valuation.{term_values};
ghost use Rattle.logical_plan.specs.Plan.{ReachesOverflow};

use expr::{Expr, eval};
use operators_scan::put_value;
use std::alloc::{AllocError, Global};
use values::{Fault, Value};

/// Puts a value at a place of a row, over the one that is there, or behind the others.
fn put_own(row: &mut Vec<Value>, at: usize, value: Value) -> Result<(), AllocError>
    requires { at ≤ length row.old.items }
    ensures value { IfOk result (λ _. take (at + 1) (map datum_of row.new.items) ≡ take at (map datum_of row.old.items) ++ datum_of value ∷ []) }
    ensures long { IfOk result (λ _. at + 1 ≤ length row.new.items) }
{
    if at < row.len() {
        row[at] = value;
        return Ok(());
    }
    row.push(value)?;
    Ok(())
}

/// Puts the value of an expression on a row at a place of `out`, over the one that is there, or behind the others: that of a column
/// in the memory of the one that was there.
fn put_result(
    alloc: Global,
    column: &Expr,
    row: &[Value],
    at: usize,
    out: &mut Vec<Value>,
) -> Result<(), Fault>
    requires { at ≤ length out.old.items }
    ensures value { IfOk result (λ _. (w : Datum)
        → take (at + 1) (map datum_of out.new.items) ≡ take at (map datum_of out.old.items) ++ eval w (term column.now) (map datum_of row.now) ∷ []) }
    ensures long { IfOk result (λ _. at + 1 ≤ length out.new.items) }
    ensures overflow { result ≡ Err Fault.Overflow → Overflows (term column.now) (map datum_of row.now) }
    ensures only { IfErr result (λ e. (e ≡ Fault.Overflow) ⊎ (e ≡ Fault.NoMemory)) }
{
    if let Expr::Column(place) = column {
        if let Some(value) = row.get(*place) {
            put_value(alloc, out, at, value.as_ref())?;
            return Ok(());
        }
    }
    let value = eval(alloc, column, row)?;
    put_own(out, at, value)?;
    Ok(())
}

/// Puts the values of these expressions on a row over `out`, whatever stands for results out of range. Its faults are
/// `Overflow` and `NoMemory`.
pub fn project(
    alloc: Global,
    columns: &[Expr],
    row: &[Value],
    out: &mut Vec<Value>,
) -> Result<(), Fault>
    ensures values { IfOk result (λ _. (w : Datum)
        → map datum_of out.new.items ≡ term_values (eval w) (map term columns.now) (map datum_of row.now)) }
    ensures overflow { result ≡ Err Fault.Overflow → ReachesOverflow (map term columns.now) (map datum_of row.now) }
    ensures only { IfErr result (λ e. (e ≡ Fault.Overflow) ⊎ (e ≡ Fault.NoMemory)) }
{
    // A row that is kept has no more memory than its values.
    out.reserve_exact(columns.len().saturating_sub(out.len()))?;
    let mut next = 0;
    for column in columns {
        put_result(alloc, column, row, next, out)?;
        next += 1;
    }
    out.truncate(columns.len());
    Ok(())
}
