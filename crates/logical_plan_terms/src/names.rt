//! The columns that terms name, and those that are read.
ghost use Rattle.std.specs.Prelude.{◌≡◌, ◌++◌, ◌↔◌, ℕ, Contains, OnOk, flat_map, map};
ghost use Rattle.std.specs.List.Sorted.{IsStrictlyIncreasing};
ghost use Rattle.expr.specs.Columns.{columns_of};
ghost use Rattle.expr.specs.View.{term};

use expr::{Expr, columns};
use std::alloc::AllocError;

/// Puts the columns that terms name at the end of a list, in the order of their mentions, one for each.
pub fn push_columns_of_all(terms: &[Expr], out: &mut Vec<usize>) -> Result<(), AllocError>
    ensures { OnOk result (out.new.items ≡ out.old.items ++ flat_map columns_of (map term terms.now)) }
{
    for t in terms {
        columns(t, out)?;
    }
    Ok(())
}

/// The columns that are read where these are named: each once, in their order.
pub fn read_columns(named: Vec<usize>) -> Vec<usize>
    ensures once { IsStrictlyIncreasing result.items }
    ensures same { (at : ℕ) → Contains result.items at ↔ Contains named.items at }
{
    let mut read = named;
    read.sort_unstable();
    read.dedup();
    read
}
