//! Aggregates of the values in ranges.
ghost use Rattle.std.specs.Prelude.{◌≡◌, ◌≤◌, ◌≤ℤ◌, ◌+ℤ◌, ◌*◌, ◌-◌, ◌^◌, Err, IfErr, IfOk, None, Option, Some, length, map, pos, slice_range};
ghost use Rattle.values.specs.Datum.{Datum, datum_of};
ghost use Rattle.expr.specs.operations.Operations.{settle};
ghost use Rattle.semantics.specs.Groups.{measure, total};
ghost use Rattle.semantics.specs.Query as query;
ghost use Rattle.windows.specs.frames.Ranges.{AreInside};
ghost use Rattle.windows.specs.frames.Slices.{slices};
ghost use Rattle.windows.specs.window_totals.Totals.{kept};

use crate::frames::Ranges;
use crate::window_totals::running::Totals;
use values::{Fault, Value};

/// A number as a value, where it has room in 64 bits; else `Overflow`.
#[tactic(auto, unfolding(expr::specs::operations::Operations::settle))]
pub fn whole_number(number: i128) -> Result<Value, Fault>
    ensures value { IfOk result (λ v. (o : Option Datum) → settle o number ≡ Some (datum_of v)) }
    ensures overflow { result ≡ Err Fault.Overflow → settle None number ≡ None }
    ensures only { IfErr result (λ e. e ≡ Fault.Overflow) }
{
    match i64::try_from(number) {
        Ok(number) => Ok(Value::Int(number)),
        Err(_) => Err(Fault::Overflow),
    }
}

impl Totals {
    /// How many values between two places aren't NULL.
    fn count_between(&self, from: usize, to: usize) -> usize
        requires ordered { from ≤ to }
        requires within { to ≤ length (map datum_of self.now.values.items) }
        ensures count { result ≡ length (kept (slice_range (map datum_of self.now.values.items) from to)) }
        ensures few { result ≤ to - from }
    {
        self.counts[to] - self.counts[from]
    }

    /// The total of the values between two places.
    fn sum_between(&self, from: usize, to: usize) -> i128
        requires ordered { from ≤ to }
        requires within { to ≤ length (map datum_of self.now.values.items) }
        ensures sum { result ≡ total (slice_range (map datum_of self.now.values.items) from to) }
        ensures low { pos 0 ≤ℤ (result +ℤ pos ((to - from) * 2 ^ 63)) }
        ensures high { result ≤ℤ pos ((to - from) * 2 ^ 63) }
    {
        self.sums[to] - self.sums[from]
    }

    /// How many values in three ranges aren't NULL.
    fn count_in(&self, ranges: &Ranges) -> usize
        requires { AreInside ranges.now (length (map datum_of self.now.values.items)) }
        ensures { result ≡ length (kept (slices ranges.now (map datum_of self.now.values.items))) }
    {
        let front = self.count_between(ranges.start, ranges.from);
        let middle = self.count_between(ranges.middle, ranges.after);
        let back = self.count_between(ranges.to, ranges.end);
        front + middle + back
    }

    /// The exact total of the values in three ranges.
    fn total_in(&self, ranges: &Ranges) -> i128
        requires { AreInside ranges.now (length (map datum_of self.now.values.items)) }
        ensures { result ≡ total (slices ranges.now (map datum_of self.now.values.items)) }
    {
        let front = self.sum_between(ranges.start, ranges.from);
        let middle = self.sum_between(ranges.middle, ranges.after);
        let back = self.sum_between(ranges.to, ranges.end);
        front + middle + back
    }

    /// `count` of the values in three ranges. (Built-in Aggregate Functions)
    pub fn count(&self, ranges: &Ranges) -> Result<Value, Fault>
        requires { AreInside ranges.now (length (map datum_of self.now.values.items)) }
        ensures value { IfOk result (λ v. (o : Option Datum)
            → measure o query.AggregateFunction.count (kept (slices ranges.now (map datum_of self.now.values.items))) ≡ Some (datum_of v)) }
        ensures overflow { result ≡ Err Fault.Overflow
            → measure None query.AggregateFunction.count (kept (slices ranges.now (map datum_of self.now.values.items))) ≡ None }
        ensures only { IfErr result (λ e. e ≡ Fault.Overflow) }
    {
        whole_number(self.count_in(ranges) as i128)
    }

    /// `sum` of the values in three ranges. (Built-in Aggregate Functions)
    pub fn sum(&self, ranges: &Ranges) -> Result<Value, Fault>
        requires { AreInside ranges.now (length (map datum_of self.now.values.items)) }
        ensures value { IfOk result (λ v. (o : Option Datum)
            → measure o query.AggregateFunction.sum (kept (slices ranges.now (map datum_of self.now.values.items))) ≡ Some (datum_of v)) }
        ensures overflow { result ≡ Err Fault.Overflow
            → measure None query.AggregateFunction.sum (kept (slices ranges.now (map datum_of self.now.values.items))) ≡ None }
        ensures only { IfErr result (λ e. e ≡ Fault.Overflow) }
    {
        if self.count_in(ranges) == 0 {
            return Ok(Value::Null);
        }
        whole_number(self.total_in(ranges))
    }
}
