//! The values of a call on all rows.
ghost use Rattle.std.specs.Prelude.{◌≡◌, ◌⊎◌, ◌<◌, ◌≤◌, ◌+◌, ℕ, All, Any, Err, IfErr, IfOk, List, OnOk, Option, Some, length, map};
ghost use Rattle.values.specs.Datum.{Datum, datum_of};
ghost use Rattle.values.specs.Row.{Row};
ghost use Rattle.expr.specs.Meaning.{Overflows, eval};
ghost use Rattle.semantics.specs.Hits.{CallLeaves, call_terms};
ghost use Rattle.semantics.specs.Sequence.{value_at};
ghost use Rattle.windows_groups.specs.window_order.Entries.{rows_of};
ghost use Rattle.windows.specs.window_entries.Tags.{tags_of};
ghost use Rattle.windows.specs.window_partitions.Partition.{ArePartitions, part_at};
ghost use Rattle.windows.specs.Wanted.{IsReachedBy, column_of, wanted};
ghost use Rattle.resolver_terms.specs.SelectView.{call_of, window_of};

use crate::parts::put_part;
use crate::window_partitions::{Partitions, partitioned};
use resolver_terms::WindowCall;
use std::alloc::{AllocError, Global};
use values::{Fault, Value};

/// So many NULLs.
fn nulls(alloc: Global, count: usize) -> Result<Vec<Value>, AllocError>
    ensures { IfOk result (λ values. length values.items ≡ count) }
{
    let mut values = Vec::with_capacity(alloc, count)?;
    'nulls: while values.len() < count {
        values.push(Value::Null)?;
    }
    Ok(values)
}

/// Puts the value of a call on each row of all partitions where it stands among the rows that are given, and answers how many
/// values it added to totals. Its faults are `Overflow` and `NoMemory`.
fn put_parts(
    alloc: Global,
    call: &WindowCall,
    parts: &Partitions,
    results: &mut Vec<Value>,
) -> Result<usize, Fault>
    requires { All (λ t. t.1 < length results.old.items) (tags_of parts.now.entries.items) }
    ensures size { length results.new.items ≡ length results.old.items }
    ensures values { OnOk result ((w : Datum) (o : Option Datum) (rows : List Row) → ArePartitions (eval w) (window_of call.now.window) rows (tags_of parts.now.entries.items) parts.now.starts.items
        → (g : ℕ) → g + 1 < length parts.now.starts.items
        → All (λ i. wanted w o (call_of call.now) rows i ≡ Some (value_at (map datum_of results.new.items) i)) (map (λ t. t.1) (part_at (tags_of parts.now.entries.items) parts.now.starts.items g))) }
    ensures added { IfOk result (λ added. added ≤ length parts.now.entries.items) }
    ensures overflow { result ≡ Err Fault.Overflow → Any (λ row. Any (λ t. Overflows t row) (call_terms (call_of call.now))) (rows_of parts.now.entries.items)
        ⊎ ((w : Datum) (rows : List Row) → ArePartitions (eval w) (window_of call.now.window) rows (tags_of parts.now.entries.items) parts.now.starts.items
        → CallLeaves (eval w) rows (call_of call.now)) }
    ensures only { IfErr result (λ e. (e ≡ Fault.Overflow) ⊎ (e ≡ Fault.NoMemory)) }
{
    let entries = parts.entries.as_slice();
    let starts = parts.starts.as_slice();
    let mut added = 0;
    for number in 1..starts.len() {
        let start = starts[number - 1];
        let end = starts[number];
        let part = &entries[start..end];
        added += put_part(alloc, call, part, results)?;
    }
    Ok(added)
}

/// The value of a call on each row, in the order in which the rows are given, and how many values of its argument were added to
/// totals: each once at most, however many frames it stands in. The faults are those of `evaluate`. (Window Functions)
pub fn evaluate_counted(
    alloc: Global,
    call: &WindowCall,
    rows: &[Vec<Value>],
) -> Result<(Vec<Value>, usize), Fault>
    ensures values { IfOk result (λ answer. (w : Datum) → map datum_of answer.0.items ≡ column_of w (map (λ row. map datum_of row.items) rows.now) (call_of call.now)) }
    ensures counted { IfOk result (λ answer. answer.1 ≤ length rows.now) }
    ensures overflow { result ≡ Err Fault.Overflow → IsReachedBy (call_of call.now) (map (λ row. map datum_of row.items) rows.now) }
    ensures only { IfErr result (λ e. (e ≡ Fault.Overflow) ⊎ (e ≡ Fault.NoMemory)) }
{
    let terms = call.window.partition.as_slice();
    let parts = partitioned(alloc, terms, rows)?;
    let mut results = nulls(alloc, rows.len())?;
    let added = put_parts(alloc, call, &parts, &mut results)?;
    Ok((results, added))
}

/// The value of a call on each row, in the order in which the rows are given. Its faults are `Overflow`, where an expression of the
/// call reaches an operation out of range on a row or the number of the call leaves 64 bits, and `NoMemory`. (Window Functions)
pub fn evaluate(alloc: Global, call: &WindowCall, rows: &[Vec<Value>]) -> Result<Vec<Value>, Fault>
    ensures values { IfOk result (λ values. (w : Datum) → map datum_of values.items ≡ column_of w (map (λ row. map datum_of row.items) rows.now) (call_of call.now)) }
    ensures overflow { result ≡ Err Fault.Overflow → IsReachedBy (call_of call.now) (map (λ row. map datum_of row.items) rows.now) }
    ensures only { IfErr result (λ e. (e ≡ Fault.Overflow) ⊎ (e ≡ Fault.NoMemory)) }
{
    let (values, _) = evaluate_counted(alloc, call, rows)?;
    Ok(values)
}

/// The values of each call on all rows, call by call, in the order in which the rows are given. Its faults are `Overflow`, where an
/// expression of a call reaches an operation out of range on a row or the number of a call leaves 64 bits, and `NoMemory`.
pub fn evaluate_all(
    alloc: Global,
    calls: &[WindowCall],
    rows: &[Vec<Value>],
) -> Result<Vec<Vec<Value>>, Fault>
    ensures columns { IfOk result (λ columns. (w : Datum) → map (λ column. map datum_of column.items) columns.items
        ≡ map (column_of w (map (λ row. map datum_of row.items) rows.now)) (map call_of calls.now)) }
    ensures overflow { result ≡ Err Fault.Overflow → Any (λ call. IsReachedBy call (map (λ row. map datum_of row.items) rows.now)) (map call_of calls.now) }
    ensures only { IfErr result (λ e. (e ≡ Fault.Overflow) ⊎ (e ≡ Fault.NoMemory)) }
{
    let mut columns = Vec::with_capacity(alloc, calls.len())?;
    for call in calls {
        let values = evaluate(alloc, call, rows)?;
        columns.push(values)?;
    }
    Ok(columns)
}
