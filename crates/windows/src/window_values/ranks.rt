//! The row number, the ranks and the bucket of a place of a sequence.
ghost use Rattle.std.specs.Prelude.{◌≡◌, ◌<◌, ◌+◌, Err, IfErr, IfOk, None, Option, Some, length, pos};
ghost use Rattle.values.specs.Datum.{Datum, datum_of};
ghost use Rattle.expr.specs.operations.Operations.{settle};
ghost use Rattle.semantics.specs.Windows.{earlier, peer_group, row_at};
ghost use Rattle.semantics.specs.Windows as windows;
ghost use Rattle.windows_groups.specs.window_order.Placed.{keys_in, ways_in};

use crate::window_totals::whole_number;
use values::{Fault, Value};
use windows_groups::Sequence;

/// The number of a row, from 1. (Window Functions, "Built-in Window Functions")
pub fn row_number(here: usize) -> Result<Value, Fault>
    ensures value { IfOk result (λ v. (o : Option Datum) → settle o (pos (here + 1)) ≡ Some (datum_of v)) }
    ensures overflow { result ≡ Err Fault.Overflow → settle None (pos (here + 1)) ≡ None }
    ensures only { IfErr result (λ e. e ≡ Fault.Overflow) }
{
    whole_number(here as i128 + 1)
}

/// How many rows come before those that ORDER BY leaves equal to this one.
fn rows_before(sequence: &Sequence, here: usize) -> usize
    requires { here < length (keys_in sequence.now) }
    ensures { result ≡ length (earlier (ways_in sequence.now) (keys_in sequence.now) (row_at (keys_in sequence.now) here)) }
{
    let group = sequence.groups.numbers[here];
    sequence.groups.starts[group]
}

/// The number of the first of the rows that ORDER BY leaves equal to this one.
pub fn rank(sequence: &Sequence, here: usize) -> Result<Value, Fault>
    requires { here < length (keys_in sequence.now) }
    ensures value { IfOk result (λ v. (o : Option Datum)
        → settle o (pos (length (earlier (ways_in sequence.now) (keys_in sequence.now) (row_at (keys_in sequence.now) here)) + 1)) ≡ Some (datum_of v)) }
    ensures overflow { result ≡ Err Fault.Overflow
        → settle None (pos (length (earlier (ways_in sequence.now) (keys_in sequence.now) (row_at (keys_in sequence.now) here)) + 1)) ≡ None }
    ensures only { IfErr result (λ e. e ≡ Fault.Overflow) }
{
    whole_number(rows_before(sequence, here) as i128 + 1)
}

/// The number of the peer group of a place.
fn group_of(sequence: &Sequence, here: usize) -> usize
    requires { here < length (keys_in sequence.now) }
    ensures { result ≡ peer_group (ways_in sequence.now) (keys_in sequence.now) here }
{
    sequence.groups.numbers[here]
}

/// The number of the peer group, from 1.
pub fn dense_rank(sequence: &Sequence, here: usize) -> Result<Value, Fault>
    requires { here < length (keys_in sequence.now) }
    ensures value { IfOk result (λ v. (o : Option Datum) → settle o (pos (peer_group (ways_in sequence.now) (keys_in sequence.now) here + 1)) ≡ Some (datum_of v)) }
    ensures overflow { result ≡ Err Fault.Overflow → settle None (pos (peer_group (ways_in sequence.now) (keys_in sequence.now) here + 1)) ≡ None }
    ensures only { IfErr result (λ e. e ≡ Fault.Overflow) }
{
    whole_number(group_of(sequence, here) as i128 + 1)
}

/// The bucket of a place, of so many rows in so many buckets.
fn bucket(buckets: u64, rows: u64, here: u64) -> u64
    requires some { 0 < buckets }
    requires within { here < rows }
    ensures value { result ≡ windows.bucket buckets rows here }
{
    let small = rows / buckets;
    let large = rows % buckets;
    let in_large = large * small + large;
    if here < in_large {
        here / (small + 1)
    } else {
        large + (here - in_large) / small
    }
}

/// The number of the bucket of a row, from 1, where the rows stand in so many buckets, as equal as can be and the larger first.
pub fn ntile(sequence: &Sequence, buckets: u64, here: usize) -> Result<Value, Fault>
    requires some { 0 < buckets }
    requires within { here < length (keys_in sequence.now) }
    ensures value { IfOk result (λ v. (o : Option Datum) → settle o (pos (windows.bucket buckets (length (keys_in sequence.now)) here + 1)) ≡ Some (datum_of v)) }
    ensures overflow { result ≡ Err Fault.Overflow → settle None (pos (windows.bucket buckets (length (keys_in sequence.now)) here + 1)) ≡ None }
    ensures only { IfErr result (λ e. e ≡ Fault.Overflow) }
{
    let rows = sequence.entries.len() as u64;
    whole_number(i128::from(bucket(buckets, rows, here as u64)) + 1)
}
