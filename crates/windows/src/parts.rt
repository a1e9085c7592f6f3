//! The values of a call on one partition.
ghost use Rattle.std.specs.Prelude.{◌≡◌, ◌⊎◌, ◌<◌, ◌≤◌, ℕ, All, Any, Err, IfErr, IfOk, List, None, OnOk, Option, length, map};
ghost use Rattle.values.specs.Datum.{Datum, datum_of};
ghost use Rattle.values.specs.Row.{Row};
ghost use Rattle.expr.specs.Meaning.{Overflows, eval};
ghost use Rattle.semantics.specs.Hits.{CallLeaves, call_terms, function_terms};
ghost use Rattle.semantics.specs.Windows.{directions, places, sort_values, window_result};
ghost use Rattle.resolver_terms.specs.SelectView.{call_of, direction_of, function_of, sort_of, window_of};
ghost use Rattle.windows_groups.specs.window_order.Entries.{IsInWindowOrder, keys_of, rows_of};
ghost use Rattle.windows.specs.window_entries.Tags.{tags_of};
ghost use Rattle.windows.specs.window_partitions.Partition.{IsPartition};
ghost use Rattle.windows.specs.window_results.Put.{AreWanted, PutsEach};
ghost use Rattle.windows.specs.Wanted.{wanted};

use crate::window_partitions::ordered;
use crate::window_results::put_values;
use resolver_terms::{SortTerm, WindowCall};
use sql_reader_syntax::Direction;
use std::alloc::{AllocError, Global};
use values::{Fault, Value};
use windows_groups::{Entry, Sequence, peer_groups};

/// How the terms of ORDER BY sort. (SELECT, "The ORDER BY clause")
fn directions_of(alloc: Global, order: &[SortTerm]) -> Result<Vec<Direction>, AllocError>
    ensures { IfOk result (λ ds. directions (map sort_of order.now) ≡ map direction_of ds.items) }
{
    let mut directions = Vec::with_capacity(alloc, order.len())?;
    for sort in order {
        directions.push(sort.direction)?;
    }
    Ok(directions)
}

/// Puts the value of a call at each place of the sequence of a partition where its row stands among those that are given, and
/// answers how many values it added to totals. Its faults are `Overflow` and `NoMemory`.
fn put_in_order(
    alloc: Global,
    call: &WindowCall,
    ways: &[Direction],
    entries: &[Entry],
    results: &mut Vec<Value>,
) -> Result<usize, Fault>
    requires ways { directions (window_of call.now.window).order ≡ map direction_of ways.now }
    requires in_order { IsInWindowOrder (map direction_of ways.now) (keys_of entries.now) }
    requires within { All (λ i. i < length results.old.items) (map (λ entry. entry.index) entries.now) }
    ensures size { length results.new.items ≡ length results.old.items }
    ensures values { OnOk result ((w : Datum) (o : Option Datum) (want : ℕ → Option Datum) → keys_of entries.now ≡ map (sort_values (eval w) (window_of call.now.window).order) (rows_of entries.now)
        → AreWanted want (window_result (eval w) o (window_of call.now.window) (function_of call.now.function) (rows_of entries.now)) (map (λ entry. entry.index) entries.now)
        → PutsEach want (map (λ entry. entry.index) entries.now) (map datum_of results.old.items) (map datum_of results.new.items)) }
    ensures added { IfOk result (λ added. added ≤ length entries.now) }
    ensures overflow { result ≡ Err Fault.Overflow → Any (λ row. Any (λ t. Overflows t row) (function_terms (function_of call.now.function))) (rows_of entries.now)
        ⊎ ((w : Datum) → keys_of entries.now ≡ map (sort_values (eval w) (window_of call.now.window).order) (rows_of entries.now)
        → Any (λ here. window_result (eval w) None (window_of call.now.window) (function_of call.now.function) (rows_of entries.now) here ≡ None) (places (rows_of entries.now))) }
    ensures only { IfErr result (λ e. (e ≡ Fault.Overflow) ⊎ (e ≡ Fault.NoMemory)) }
{
    let groups = peer_groups(alloc, ways, entries)?;
    let sequence = Sequence {
        directions: ways,
        entries,
        groups: &groups,
    };
    put_values(alloc, &call.function, call.window.frame, &sequence, results)
}

/// Puts the value of a call on each row of a partition where it stands among the rows that are given, and answers how many values
/// it added to totals. Its faults are `Overflow`, where an expression of the call reaches an operation out of range on a row or
/// the number of the call leaves 64 bits, and `NoMemory`.
pub(crate) fn put_part(
    alloc: Global,
    call: &WindowCall,
    part: &[Entry],
    results: &mut Vec<Value>,
) -> Result<usize, Fault>
    requires { All (λ t. t.1 < length results.old.items) (tags_of part.now) }
    ensures size { length results.new.items ≡ length results.old.items }
    ensures values { OnOk result ((w : Datum) (o : Option Datum) (rows : List Row) → IsPartition (eval w) (window_of call.now.window) rows (tags_of part.now)
        → PutsEach (wanted w o (call_of call.now) rows) (map (λ t. t.1) (tags_of part.now)) (map datum_of results.old.items) (map datum_of results.new.items)) }
    ensures added { IfOk result (λ added. added ≤ length part.now) }
    ensures overflow { result ≡ Err Fault.Overflow → Any (λ row. Any (λ t. Overflows t row) (call_terms (call_of call.now))) (rows_of part.now)
        ⊎ ((w : Datum) (rows : List Row) → IsPartition (eval w) (window_of call.now.window) rows (tags_of part.now) → CallLeaves (eval w) rows (call_of call.now)) }
    ensures only { IfErr result (λ e. (e ≡ Fault.Overflow) ⊎ (e ≡ Fault.NoMemory)) }
{
    let order = call.window.order.as_slice();
    let directions = directions_of(alloc, order)?;
    let ways = directions.as_slice();
    let entries = ordered(alloc, order, ways, part)?;
    let placed = entries.as_slice();
    put_in_order(alloc, call, ways, placed, results)
}
