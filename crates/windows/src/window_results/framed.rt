//! Functions of the values of a frame.
ghost use Rattle.std.specs.Prelude.{◌≡◌, ◌≤◌, ◌⊎◌, Err, IfErr, IfOk, None, Option, Some, length, map};
ghost use Rattle.values.specs.Datum.{Datum, datum_of};
ghost use Rattle.resolver_terms.specs.SelectView.{aggregate_function_of};
ghost use Rattle.windows.specs.frames.Ranges.{AreInside};
ghost use Rattle.windows.specs.frames.Slices.{slices};
ghost use Rattle.windows.specs.window_results.Framed.{aggregate, framed_of, over_values};

use crate::first_values::Side;
use crate::frames::Ranges;
use crate::window_extremes::Firsts;
use crate::window_totals::Totals;
use crate::window_values::{first_value, last_value, nth_value};
use resolver_terms::AggregateFunction;
use std::alloc::{AllocError, Global};
use values::{Fault, Value};

/// A function of the values of a frame, with what is computed once of the values along a sequence. (Window Functions)
#[derive(Drop)]
pub enum Framed {
    Count(Totals),
    Sum(Totals),
    /// `min` or `max`.
    First(Firsts),
    FirstValue(Vec<Value>),
    LastValue(Vec<Value>),
    /// The values, and the row of the frame, from 1.
    NthValue(Vec<Value>, u64),
}

impl Framed {
    /// An aggregate of these values of its argument.
    pub(crate) fn aggregate(
        alloc: Global,
        function: AggregateFunction,
        values: Vec<Value>,
    ) -> Result<Framed, AllocError>
        ensures { IfOk result (λ framed. framed_of framed ≡ record { function = aggregate (aggregate_function_of function); values = map datum_of values.items }) }
    {
        match function {
            AggregateFunction::Count => Ok(Framed::Count(Totals::new(alloc, values)?)),
            AggregateFunction::Sum => Ok(Framed::Sum(Totals::new(alloc, values)?)),
            AggregateFunction::Min => Ok(Framed::First(Firsts::new(alloc, Side::Least, values)?)),
            AggregateFunction::Max => {
                Ok(Framed::First(Firsts::new(alloc, Side::Greatest, values)?))
            }
        }
    }

    /// How many values were added to totals: each of those along the sequence once, or none.
    pub(crate) fn added(&self) -> usize
        ensures { result ≤ length (framed_of self.now).values }
    {
        match self {
            Framed::Count(totals) | Framed::Sum(totals) => totals.added,
            _ => 0,
        }
    }

    /// The value over a frame. `Overflow` comes only where a count or an exact total leaves 64 bits; the one other fault is
    /// `NoMemory`.
    pub fn value_in(&self, alloc: Global, ranges: &Ranges) -> Result<Value, Fault>
        requires { AreInside ranges.now (length (framed_of self.now).values) }
        ensures value { IfOk result (λ v. (o : Option Datum) → over_values o (framed_of self.now).function (slices ranges.now (framed_of self.now).values) ≡ Some (datum_of v)) }
        ensures overflow { result ≡ Err Fault.Overflow → over_values None (framed_of self.now).function (slices ranges.now (framed_of self.now).values) ≡ None }
        ensures only { IfErr result (λ e. (e ≡ Fault.Overflow) ⊎ (e ≡ Fault.NoMemory)) }
    {
        match self {
            Framed::Count(totals) => totals.count(ranges),
            Framed::Sum(totals) => totals.sum(ranges),
            Framed::First(firsts) => Ok(firsts.first(alloc, ranges)?),
            Framed::FirstValue(values) => Ok(first_value(alloc, values.as_slice(), ranges)?),
            Framed::LastValue(values) => Ok(last_value(alloc, values.as_slice(), ranges)?),
            Framed::NthValue(values, row) => {
                let at = row.saturating_sub(1) as usize;
                Ok(nth_value(alloc, values.as_slice(), ranges, at)?)
            }
        }
    }
}
