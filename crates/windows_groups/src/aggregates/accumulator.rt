//! One aggregate of the values so far.
ghost use Rattle.std.specs.Prelude.{◌≡◌, ◌⊎◌, ◌≤◌, ◌++◌, ◌+◌, ◌+ℤ◌, ◌^◌, FitsSigned, pos, List, [], ◌∷◌, Some, None, Err, IfErr, IfOk, OnOk, Option, option_map, unwrap_or};
ghost use Rattle.std.specs.Int.{w128};
ghost use Rattle.std.specs.Ordering.{flip_args};
ghost use Rattle.values.specs.Datum.{Datum, datum_of};
ghost use Rattle.values.specs.Order.{datum_cmp};
ghost use Rattle.expr.specs.operations.Operations.{settle};
ghost use Rattle.semantics.specs.Groups.{measure, number};
ghost use Rattle.semantics.specs.Query as query;
ghost use Rattle.resolver_terms.specs.SelectView.{aggregate_function_of};
ghost use Rattle.windows_groups.specs.aggregates.State.{IsFull, first_of, state_after, state_of, taken};

use resolver_terms::AggregateFunction;
use std::alloc::Global;
use values::{Fault, Value, compare};

/// An aggregate of the values so far, of which NULL is none. (Built-in Aggregate Functions)
#[derive(Drop)]
pub enum Accumulator {
    /// How many values there were.
    Count(u64),
    /// Their exact total; nothing where there was none.
    Sum(Option<i128>),
    /// The least of them.
    Min(Option<Value>),
    /// The greatest of them.
    Max(Option<Value>),
}

/// A count with one more.
fn count_with(count: u64) -> Result<u64, Fault>
    ensures count { IfOk result (λ new. new ≡ count + 1) }
    ensures full { IfErr result (λ e. 2 ^ 64 ≤ count + 1) }
    ensures only { IfErr result (λ e. e ≡ Fault.NoMemory) }
{
    match count.checked_add(1) {
        Some(count) => Ok(count),
        None => Err(Fault::NoMemory),
    }
}

/// The number that a value is, and 0 of all else.
fn number_of(value: Value) -> i128
    ensures { result ≡ number (datum_of value) }
{
    match value {
        Value::Int(number) => i128::from(number),
        _ => 0,
    }
}

/// A total with a number more.
fn total_with(total: Option<i128>, number: i128) -> Result<i128, Fault>
    ensures total { IfOk result (λ new. new ≡ unwrap_or total (pos 0) +ℤ number) }
    ensures full { IfErr result (λ e. ¬ FitsSigned w128 (unwrap_or total (pos 0) +ℤ number)) }
    ensures only { IfErr result (λ e. e ≡ Fault.NoMemory) }
{
    match total.unwrap_or(0).checked_add(number) {
        Some(total) => Ok(total),
        None => Err(Fault::NoMemory),
    }
}

/// The less of two values, if there are two.
fn less_of(best: Option<Value>, value: Value) -> Value
    ensures { datum_of result ≡ first_of datum_cmp (option_map datum_of best) (datum_of value) }
{
    match best {
        Some(best) => {
            if compare(&best, &value).is_lt() {
                best
            } else {
                value
            }
        }
        None => value,
    }
}

/// The greater of two values, if there are two.
fn greater_of(best: Option<Value>, value: Value) -> Value
    ensures { datum_of result ≡ first_of (flip_args datum_cmp) (option_map datum_of best) (datum_of value) }
{
    match best {
        Some(best) => {
            if compare(&value, &best).is_lt() {
                best
            } else {
                value
            }
        }
        None => value,
    }
}

/// A number as a value, where it has room in 64 bits.
#[tactic(auto, unfolding(expr::specs::operations::Operations::settle))]
fn whole_number(number: i128) -> Result<Value, Fault>
    ensures value { IfOk result (λ v. (o : Option Datum) → settle o number ≡ Some (datum_of v)) }
    ensures overflow { result ≡ Err Fault.Overflow → settle None number ≡ None }
    ensures only { IfErr result (λ e. e ≡ Fault.Overflow) }
{
    match i64::try_from(number) {
        Ok(number) => Ok(Value::Int(number)),
        Err(_) => Err(Fault::Overflow),
    }
}

impl Accumulator {
    /// An aggregate of no values.
    pub fn new(function: AggregateFunction) -> Accumulator
        ensures { state_of result ≡ state_after (aggregate_function_of function) [] }
    {
        match function {
            AggregateFunction::Count => Accumulator::Count(0),
            AggregateFunction::Sum => Accumulator::Sum(None),
            AggregateFunction::Min => Accumulator::Min(None),
            AggregateFunction::Max => Accumulator::Max(None),
        }
    }

    /// Goes on by a value that isn't passed over.
    fn take(&mut self, value: Value) -> Result<(), Fault>
        ensures state { OnOk result ((f : query.AggregateFunction) (values : List Datum) → state_of self.old ≡ state_after f values
            → state_of self.new ≡ state_after f (values ++ datum_of value ∷ [])) }
        ensures full { IfErr result (λ e. IsFull (state_of self.old) (datum_of value)) }
        ensures only { IfErr result (λ e. e ≡ Fault.NoMemory) }
    {
        match self {
            Accumulator::Count(count) => {
                *count = count_with(*count)?;
                Ok(())
            }
            Accumulator::Sum(total) => {
                *total = Some(total_with(*total, number_of(value))?);
                Ok(())
            }
            Accumulator::Min(best) => {
                *best = Some(less_of(best.take(), value));
                Ok(())
            }
            Accumulator::Max(best) => {
                *best = Some(greater_of(best.take(), value));
                Ok(())
            }
        }
    }

    /// Goes on by a value; NULL is passed over. Its one fault is `NoMemory`, where so many values came that their count has no
    /// room in 64 bits or their total none in 128.
    pub fn add(&mut self, value: Value) -> Result<(), Fault>
        ensures state { OnOk result ((f : query.AggregateFunction) (values : List Datum) → state_of self.old ≡ state_after f values
            → state_of self.new ≡ state_after f (values ++ taken (datum_of value))) }
        ensures full { IfErr result (λ e. IsFull (state_of self.old) (datum_of value)) }
        ensures only { IfErr result (λ e. e ≡ Fault.NoMemory) }
    {
        match value {
            Value::Null => Ok(()),
            value => self.take(value),
        }
    }

    /// The value of the aggregate. `Overflow` comes only where a count or an exact total leaves 64 bits; the one other fault
    /// is `NoMemory`.
    pub fn value(&self, alloc: Global) -> Result<Value, Fault>
        ensures value { IfOk result (λ v. (o : Option Datum) (f : query.AggregateFunction) (values : List Datum) → state_of self.now ≡ state_after f values
            → measure o f values ≡ Some (datum_of v)) }
        ensures overflow { result ≡ Err Fault.Overflow → (f : query.AggregateFunction) (values : List Datum) → state_of self.now ≡ state_after f values
            → measure None f values ≡ None }
        ensures only { IfErr result (λ e. (e ≡ Fault.Overflow) ⊎ (e ≡ Fault.NoMemory)) }
    {
        match self {
            Accumulator::Count(count) => whole_number(i128::from(*count)),
            Accumulator::Sum(Some(total)) => whole_number(*total),
            Accumulator::Min(Some(best)) => Ok(best.as_ref().to_value(alloc)?),
            Accumulator::Max(Some(best)) => Ok(best.as_ref().to_value(alloc)?),
            _ => Ok(Value::Null),
        }
    }
}
