//! The whole numbers among some values.
ghost use Rattle.std.specs.Prelude.{◌≡◌, false, IfOk, IsFalse, List, map};
ghost use Rattle.std.specs.List.{filter_map};
ghost use Rattle.values.specs.Datum.{Datum, datum_of, int};
ghost use Rattle.expr.specs.value_sets.Numbers.{AreNumbersOf, number_in};
ghost use Rattle.expr.specs.value_sets.Order.{is_among};

use std::alloc::{AllocError, Global};
use values::Value;

/// The numbers of these values, in the order of the values.
fn given_numbers(alloc: Global, values: &[Value]) -> Result<Vec<i64>, AllocError>
    ensures { IfOk result (λ numbers. numbers.items ≡ filter_map number_in (map datum_of values.now)) }
{
    let mut numbers = Vec::new(alloc);
    for value in values {
        if let Value::Int(number) = value {
            numbers.push(*number)?;
        }
    }
    Ok(numbers)
}

/// The numbers of these values, ascending.
pub(crate) fn numbers_of(alloc: Global, values: &[Value]) -> Result<Vec<i64>, AllocError>
    ensures { IfOk result (λ numbers. AreNumbersOf (map datum_of values.now) numbers.items) }
{
    let mut numbers = given_numbers(alloc, values)?;
    numbers.sort_unstable();
    Ok(numbers)
}

/// Whether a number is within the least and the greatest of these; most numbers that are searched aren't.
#[inline(always)]
fn spans(numbers: &[i64], number: i64) -> bool
    ensures { IsFalse result → (values : List Datum) → AreNumbersOf values numbers.now → is_among (int number) values ≡ false }
{
    if numbers.is_empty() {
        return false;
    }
    if number < numbers[0] {
        return false;
    }
    if numbers[numbers.len() - 1] < number {
        return false;
    }
    true
}

/// Whether a number is one of the values whose numbers these are.
#[inline(always)]
pub(crate) fn has_number(numbers: &[i64], number: i64) -> bool
    ensures { (values : List Datum) → AreNumbersOf values numbers.now → result ≡ is_among (int number) values }
{
    if !spans(numbers, number) {
        return false;
    }
    numbers.binary_search(&number).is_ok()
}
