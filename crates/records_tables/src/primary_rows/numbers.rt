//! Lists of numbers, each once.
ghost use Rattle.std.specs.Prelude.{◌≡◌, ◌++◌, IfOk, OnOk, map};
ghost use Rattle.std.specs.List.{range_with_len};
ghost use Rattle.records_tables.specs.primary_rows.Firsts as spec;
ghost use Rattle.records_tables.specs.primary_rows.Firsts.{firsts};

use std::alloc::{AllocError, Global};

/// Puts those numbers of a list behind others that aren't among them yet, each once.
pub(crate) fn put_firsts(met: &mut Vec<usize>, numbers: &[usize]) -> Result<(), AllocError>
    ensures { OnOk result (met.new.items ≡ met.old.items ++ firsts met.old.items numbers.now) }
{
    for number in numbers {
        if !met.contains(number) {
            met.push(*number)?;
        }
    }
    Ok(())
}

/// The numbers below another one.
pub(crate) fn numbers_below(alloc: Global, count: usize) -> Result<Vec<usize>, AllocError>
    ensures { IfOk result (λ numbers. numbers.items ≡ range_with_len 0 count) }
{
    let mut numbers = Vec::with_capacity(alloc, count)?;
    for number in 0..count {
        numbers.push(number)?;
    }
    Ok(numbers)
}

/// Where a number stands first in a list, or the list's length where it doesn't.
fn place_of(numbers: &[usize], number: usize) -> usize
    ensures { result ≡ spec.place_of numbers.now number }
{
    for (at, other) in numbers.iter().enumerate() {
        if *other == number {
            return at;
        }
    }
    numbers.len()
}

/// Where each number below another one stands first in a list.
pub(crate) fn places_in(
    alloc: Global,
    numbers: &[usize],
    count: usize,
) -> Result<Vec<usize>, AllocError>
    ensures { IfOk result (λ places. places.items ≡ map (spec.place_of numbers.now) (range_with_len 0 count)) }
{
    let mut places = Vec::with_capacity(alloc, count)?;
    for number in 0..count {
        places.push(place_of(numbers, number))?;
    }
    Ok(places)
}
