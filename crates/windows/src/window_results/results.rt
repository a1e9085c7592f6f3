//! The values of a function at the places of a sequence.
ghost use Rattle.std.specs.Prelude.{◌≡◌, ◌<◌, ◌≤◌, ◌⊎◌, ◌+◌, ℕ, All, Any, Err, IfErr, IfOk, None, OnOk, Option, Some, length, map, pos};
ghost use Rattle.values.specs.Datum.{Datum, datum_of};
ghost use Rattle.expr.specs.Meaning.{Overflows, eval};
ghost use Rattle.expr.specs.operations.Operations.{settle};
ghost use Rattle.semantics.specs.Hits.{function_terms};
ghost use Rattle.semantics.specs.Query as query;
ghost use Rattle.semantics.specs.Valuation.{Valuation};
ghost use Rattle.semantics.specs.Windows.{places, window_result};
ghost use Rattle.semantics.specs.Windows as windows;
ghost use Rattle.resolver_terms.specs.SelectView.{frame_of, function_of};
ghost use Rattle.windows_groups.specs.window_order.Placed.{keys_in, rows_in, ways_in};
ghost use Rattle.windows.specs.window_results.Known.{IsAsLong, known_for, known_of, known_result};
ghost use Rattle.windows.specs.window_results.Over.{IsWindowOver};
ghost use Rattle.windows.specs.window_results.Put.{AreWanted, PutsEach, numbers_in};

use crate::frames::ranges_of;
use crate::window_results::computed::{Computed, compute};
use crate::window_values::{dense_rank, lag, lead, ntile, rank, row_number};
use resolver_terms::{Frame, WindowFunction};
use std::alloc::Global;
use values::{Fault, Value};
use windows_groups::Sequence;

/// The number of the bucket of a row, from 1. Where there are no buckets, for which no statement asks, each row is one.
fn bucket_number(sequence: &Sequence, buckets: u64, here: usize) -> Result<Value, Fault>
    requires { here < length (keys_in sequence.now) }
    ensures value { IfOk result (λ v. (o : Option Datum) → settle o (pos (windows.bucket buckets (length (keys_in sequence.now)) here + 1)) ≡ Some (datum_of v)) }
    ensures overflow { result ≡ Err Fault.Overflow → settle None (pos (windows.bucket buckets (length (keys_in sequence.now)) here + 1)) ≡ None }
    ensures only { IfErr result (λ e. e ≡ Fault.Overflow) }
{
    if buckets == 0 {
        return row_number(here);
    }
    ntile(sequence, buckets, here)
}

impl Computed {
    /// How many values were added to totals: each of those along the sequence once, or none.
    fn added(&self) -> usize
        ensures { (size : ℕ) → IsAsLong size (known_of self.now) → result ≤ size }
    {
        match self {
            Computed::OverFrame(framed) => framed.added(),
            _ => 0,
        }
    }

    /// The value at a place, from what is known of the sequence.
    fn known_value(
        &self,
        alloc: Global,
        sequence: &Sequence,
        frame: Frame,
        here: usize,
    ) -> Result<Value, Fault>
        requires here { here < length (keys_in sequence.now) }
        requires whole { IsAsLong (length (keys_in sequence.now)) (known_of self.now) }
        ensures value { IfOk result (λ v. (o : Option Datum)
            → known_result o (ways_in sequence.now) (frame_of frame) (keys_in sequence.now) (known_of self.now) here ≡ Some (datum_of v)) }
        ensures overflow { result ≡ Err Fault.Overflow
            → known_result None (ways_in sequence.now) (frame_of frame) (keys_in sequence.now) (known_of self.now) here ≡ None }
        ensures only { IfErr result (λ e. (e ≡ Fault.Overflow) ⊎ (e ≡ Fault.NoMemory)) }
    {
        match self {
            Computed::OverFrame(framed) => {
                let ranges = ranges_of(sequence, frame, here);
                framed.value_in(alloc, &ranges)
            }
            Computed::RowNumber => row_number(here),
            Computed::Rank => rank(sequence, here),
            Computed::DenseRank => dense_rank(sequence, here),
            Computed::NTile(buckets) => bucket_number(sequence, *buckets, here),
            Computed::Lag(shifted) => {
                let otherwise = &shifted.otherwise[here];
                Ok(lag(
                    alloc,
                    shifted.values.as_slice(),
                    otherwise,
                    shifted.count,
                    here,
                )?)
            }
            Computed::Lead(shifted) => {
                let otherwise = &shifted.otherwise[here];
                Ok(lead(
                    alloc,
                    shifted.values.as_slice(),
                    otherwise,
                    shifted.count,
                    here,
                )?)
            }
        }
    }

    /// The value at a place of the sequence that it was computed of. `Overflow` comes only where the number of the function
    /// leaves 64 bits there; the one other fault is `NoMemory`. (Window Functions)
    pub fn value_at(
        &self,
        alloc: Global,
        sequence: &Sequence,
        frame: Frame,
        here: usize,
    ) -> Result<Value, Fault>
        requires here { here < length (keys_in sequence.now) }
        requires whole { IsAsLong (length (keys_in sequence.now)) (known_of self.now) }
        ensures value { IfOk result (λ v. (value : Valuation) (o : Option Datum) (window : query.Window) (f : query.WindowFunction)
            → IsWindowOver value window sequence.now frame → known_of self.now ≡ known_for value f (rows_in sequence.now)
            → window_result value o window f (rows_in sequence.now) here ≡ Some (datum_of v)) }
        ensures overflow { result ≡ Err Fault.Overflow → (value : Valuation) (window : query.Window) (f : query.WindowFunction)
            → IsWindowOver value window sequence.now frame → known_of self.now ≡ known_for value f (rows_in sequence.now)
            → window_result value None window f (rows_in sequence.now) here ≡ None }
        ensures only { IfErr result (λ e. (e ≡ Fault.Overflow) ⊎ (e ≡ Fault.NoMemory)) }
    {
        self.known_value(alloc, sequence, frame, here)
    }

    /// Puts the value at each place of the sequence that it was computed of where the row there stands among those that are given.
    /// `Overflow` comes only where the number of the function leaves 64 bits at a place; the one other fault is `NoMemory`.
    fn put_along(
        &self,
        alloc: Global,
        sequence: &Sequence,
        frame: Frame,
        results: &mut Vec<Value>,
    ) -> Result<(), Fault>
        requires whole { IsAsLong (length (keys_in sequence.now)) (known_of self.now) }
        requires within { All (λ i. i < length results.old.items) (numbers_in sequence.now) }
        ensures size { length results.new.items ≡ length results.old.items }
        ensures values { OnOk result ((value : Valuation) (o : Option Datum) (window : query.Window) (f : query.WindowFunction) (want : ℕ → Option Datum)
            → IsWindowOver value window sequence.now frame → known_of self.now ≡ known_for value f (rows_in sequence.now)
            → AreWanted want (window_result value o window f (rows_in sequence.now)) (numbers_in sequence.now)
            → PutsEach want (numbers_in sequence.now) (map datum_of results.old.items) (map datum_of results.new.items)) }
        ensures overflow { result ≡ Err Fault.Overflow → (value : Valuation) (window : query.Window) (f : query.WindowFunction)
            → IsWindowOver value window sequence.now frame → known_of self.now ≡ known_for value f (rows_in sequence.now)
            → Any (λ here. window_result value None window f (rows_in sequence.now) here ≡ None) (places (rows_in sequence.now)) }
        ensures only { IfErr result (λ e. (e ≡ Fault.Overflow) ⊎ (e ≡ Fault.NoMemory)) }
    {
        let entries = sequence.entries;
        for here in 0..entries.len() {
            let value = self.value_at(alloc, sequence, frame, here)?;
            results[entries[here].index] = value;
        }
        Ok(())
    }
}

/// Puts the value of a function at each place of a sequence where the row there stands among those that are given, and answers
/// how many values it added to totals. Its faults are `Overflow`, where an argument reaches an operation out of range on a row or
/// the number of the function leaves 64 bits at a place, and `NoMemory`.
pub fn put_values(
    alloc: Global,
    function: &WindowFunction,
    frame: Frame,
    sequence: &Sequence,
    results: &mut Vec<Value>,
) -> Result<usize, Fault>
    requires { All (λ i. i < length results.old.items) (numbers_in sequence.now) }
    ensures size { length results.new.items ≡ length results.old.items }
    ensures values { OnOk result ((w : Datum) (o : Option Datum) (window : query.Window) (want : ℕ → Option Datum) → IsWindowOver (eval w) window sequence.now frame
        → AreWanted want (window_result (eval w) o window (function_of function.now) (rows_in sequence.now)) (numbers_in sequence.now)
        → PutsEach want (numbers_in sequence.now) (map datum_of results.old.items) (map datum_of results.new.items)) }
    ensures added { IfOk result (λ added. added ≤ length (rows_in sequence.now)) }
    ensures overflow { result ≡ Err Fault.Overflow → Any (λ row. Any (λ t. Overflows t row) (function_terms (function_of function.now))) (rows_in sequence.now)
        ⊎ ((w : Datum) (window : query.Window) → IsWindowOver (eval w) window sequence.now frame
        → Any (λ here. window_result (eval w) None window (function_of function.now) (rows_in sequence.now) here ≡ None) (places (rows_in sequence.now))) }
    ensures only { IfErr result (λ e. (e ≡ Fault.Overflow) ⊎ (e ≡ Fault.NoMemory)) }
{
    let computed = compute(alloc, function, sequence)?;
    computed.put_along(alloc, sequence, frame, results)?;
    Ok(computed.added())
}
