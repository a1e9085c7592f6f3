//! Totals and counts of the first values of a sequence.
ghost use Rattle.std.specs.Prelude.{◌≡◌, ◌≤◌, ◌<◌, ◌+◌, ◌^◌, ◌+ℤ◌, ◌∷◌, [], IfOk, length, map, pos};
ghost use Rattle.values.specs.Datum.{datum_of};
ghost use Rattle.semantics.specs.Groups.{number};
ghost use Rattle.windows.specs.window_totals.Totals.{AreTotals, IsBounded, IsSmall, kept};

use std::alloc::{AllocError, Global};
use values::Value;

/// The exact total of values, in 128 bits, and how many of them aren't NULL.
#[derive(Drop)]
pub struct Total {
    pub sum: i128,
    pub count: usize,
    /// How many values were added, NULL or not.
    pub added: usize,
    ghost bounded: { IsBounded added sum },
    ghost few: { count ≤ added },
}

/// The values of an argument along a sequence, with the exact totals of the first of them and how many of these aren't NULL,
/// for each number of them.
#[derive(Drop)]
pub struct Totals {
    pub values: Vec<Value>,
    pub sums: Vec<i128>,
    pub counts: Vec<usize>,
    /// How many values were added to make them.
    pub added: usize,
    ghost totals: { AreTotals (map datum_of values.items) sums.items counts.items },
    ghost once: { added ≡ length values.items },
}

/// The number that a value is, and 0 of all else.
fn number_of(value: &Value) -> i128
    ensures number { result ≡ number (datum_of value.now) }
    ensures small { IsSmall (datum_of value.now) }
{
    match value {
        Value::Int(number) => i128::from(*number),
        _ => 0,
    }
}

/// 1 of a value that isn't NULL.
#[tactic(auto, unfolding(expr::specs::operations::Operations::is_null))]
fn counted(value: &Value) -> usize
    ensures count { result ≡ length (kept (datum_of value.now ∷ [])) }
    ensures one { result ≤ 1 }
{
    match value {
        Value::Null => 0,
        _ => 1,
    }
}

impl Total {
    /// The total of no values.
    pub fn new() -> Total
        ensures sum { result.sum ≡ pos 0 }
        ensures count { result.count ≡ 0 }
        ensures added { result.added ≡ 0 }
    {
        Total {
            sum: 0,
            count: 0,
            added: 0,
        }
    }

    /// Adds a value. No other call adds one to a total.
    pub fn add(&mut self, value: &Value)
        requires { self.old.added + 1 < 2 ^ 64 }
        ensures sum { self.new.sum ≡ self.old.sum +ℤ number (datum_of value.now) }
        ensures count { self.new.count ≡ self.old.count + length (kept (datum_of value.now ∷ [])) }
        ensures added { self.new.added ≡ self.old.added + 1 }
        ensures small { IsSmall (datum_of value.now) }
    {
        self.sum += number_of(value);
        self.count += counted(value);
        self.added += 1;
    }
}

impl Totals {
    /// Each value is added once.
    pub fn new(alloc: Global, values: Vec<Value>) -> Result<Totals, AllocError>
        ensures { IfOk result (λ totals. totals.values ≡ values) }
    {
        let mut sums = Vec::new(alloc);
        let mut counts = Vec::new(alloc);
        let mut total = Total::new();
        sums.push(total.sum)?;
        counts.push(total.count)?;
        let given = values.as_slice();
        for value in given {
            total.add(value);
            sums.push(total.sum)?;
            counts.push(total.count)?;
        }
        Ok(Totals {
            values,
            sums,
            counts,
            added: total.added,
        })
    }
}
