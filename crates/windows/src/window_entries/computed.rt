//! The values of terms on rows.
ghost use Rattle.std.specs.Prelude.{◌≡◌, ◌⊎◌, Any, Err, IfErr, IfOk, length, map};
ghost use Rattle.std.specs.List.{range_with_len};
ghost use Rattle.values.specs.Datum.{Datum, datum_of};
ghost use Rattle.expr.specs.Meaning.{Overflows, eval};
ghost use Rattle.expr.specs.View.{term};
ghost use Rattle.semantics.specs.Valuation.{term_values};
ghost use Rattle.windows.specs.window_entries.Tags.{tags_of};
ghost use Rattle.resolver_terms.specs.SelectView.{sort_of};
ghost use Rattle.windows.specs.window_partitions.Tagged.{terms_of};
ghost use Rattle.windows_groups.specs.window_order.Entries.{keys_of, rows_of};

use expr::{Expr, eval};
use resolver_terms::SortTerm;
use std::alloc::Global;
use values::{Fault, Value};
use windows_groups::Entry;

/// The values of terms on a row. Its faults are `Overflow` and `NoMemory`.
fn values_on(alloc: Global, terms: &[Expr], row: &[Value]) -> Result<Vec<Value>, Fault>
    ensures values { IfOk result (λ values. (w : Datum) → map datum_of values.items ≡ term_values (eval w) (map term terms.now) (map datum_of row.now)) }
    ensures overflow { result ≡ Err Fault.Overflow → Any (λ t. Overflows t (map datum_of row.now)) (map term terms.now) }
    ensures only { IfErr result (λ e. (e ≡ Fault.Overflow) ⊎ (e ≡ Fault.NoMemory)) }
{
    let mut values = Vec::with_capacity(alloc, terms.len())?;
    for expression in terms {
        let value = eval(alloc, expression, row)?;
        values.push(value)?;
    }
    Ok(values)
}

/// An entry for each row, with the values of the terms of ORDER BY on it. Its faults are `Overflow` and `NoMemory`.
pub fn entries<'a>(
    alloc: Global,
    terms: &[Expr],
    rows: &'a [Vec<Value>],
) -> Result<Vec<Entry<'a>>, Fault>
    ensures rows { IfOk result (λ placed. rows_of placed.items ≡ map (λ row. map datum_of row.items) rows.now) }
    ensures places { IfOk result (λ placed. map (λ entry. entry.index) placed.items ≡ range_with_len 0 (length rows.now)) }
    ensures keys { IfOk result (λ placed. (w : Datum) → keys_of placed.items ≡ map (term_values (eval w) (map term terms.now)) (map (λ row. map datum_of row.items) rows.now)) }
    ensures overflow { result ≡ Err Fault.Overflow → Any (λ row. Any (λ t. Overflows t row) (map term terms.now)) (map (λ row. map datum_of row.items) rows.now) }
    ensures only { IfErr result (λ e. (e ≡ Fault.Overflow) ⊎ (e ≡ Fault.NoMemory)) }
{
    let mut placed = Vec::with_capacity(alloc, rows.len())?;
    for index in 0..rows.len() {
        let row = rows[index].as_slice();
        let keys = values_on(alloc, terms, row)?;
        placed.push(Entry { row, keys, index })?;
    }
    Ok(placed)
}

/// The values of the terms of ORDER BY on a row. Its faults are `Overflow` and `NoMemory`.
fn sort_values(alloc: Global, order: &[SortTerm], row: &[Value]) -> Result<Vec<Value>, Fault>
    ensures values { IfOk result (λ values. (w : Datum) → map datum_of values.items ≡ term_values (eval w) (terms_of (map sort_of order.now)) (map datum_of row.now)) }
    ensures overflow { result ≡ Err Fault.Overflow → Any (λ t. Overflows t (map datum_of row.now)) (terms_of (map sort_of order.now)) }
    ensures only { IfErr result (λ e. (e ≡ Fault.Overflow) ⊎ (e ≡ Fault.NoMemory)) }
{
    let mut values = Vec::with_capacity(alloc, order.len())?;
    for sort in order {
        let value = eval(alloc, &sort.term, row)?;
        values.push(value)?;
    }
    Ok(values)
}

/// The rows of entries again, with the values of the terms of ORDER BY on them. Its faults are `Overflow` and `NoMemory`.
pub fn with_keys<'a>(
    alloc: Global,
    order: &[SortTerm],
    entries: &[Entry<'a>],
) -> Result<Vec<Entry<'a>>, Fault>
    ensures rows { IfOk result (λ placed. tags_of placed.items ≡ tags_of entries.now) }
    ensures keys { IfOk result (λ placed. (w : Datum) → keys_of placed.items ≡ map (term_values (eval w) (terms_of (map sort_of order.now))) (rows_of entries.now)) }
    ensures overflow { result ≡ Err Fault.Overflow → Any (λ row. Any (λ t. Overflows t row) (terms_of (map sort_of order.now))) (rows_of entries.now) }
    ensures only { IfErr result (λ e. (e ≡ Fault.Overflow) ⊎ (e ≡ Fault.NoMemory)) }
{
    let mut placed = Vec::with_capacity(alloc, entries.len())?;
    for entry in entries {
        let keys = sort_values(alloc, order, entry.row)?;
        placed.push(Entry {
            row: entry.row,
            keys,
            index: entry.index,
        })?;
    }
    Ok(placed)
}
