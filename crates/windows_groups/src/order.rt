//! Rows in order by their own values.
ghost use Rattle.std.specs.Prelude.{◌≡◌, IsPermutation, IsTrue, OnOk, map};
ghost use Rattle.std.specs.List.Sorted.{IsSortedByKey};
ghost use Rattle.values.specs.Datum.{datum_of};
ghost use Rattle.values.specs.Row.{rows_data};
ghost use Rattle.semantics.specs.Sequence.{directed_cmp, keys_cmp, value_at};
ghost use Rattle.resolver_terms.specs.SelectView.{direction_of};
ghost use Rattle.windows_groups.specs.Keys.{directions, key_values};
ghost use Rattle.windows_groups.specs.Ranked.{AreRanked, first_rank};

use crate::window_order::{Rank, compare_by, is_number_at, rank_at};
use sql_reader_syntax::Direction;
use std::alloc::AllocError;
use std::cmp::Ordering;
use values::Value;

/// A value of the rows themselves that ORDER BY puts them in order by, and how it sorts. (SELECT, "The ORDER BY clause")
#[derive(Clone, Copy, Drop)]
pub struct ResultKey {
    /// The place of the value; past its end a row has NULLs.
    pub at: usize,
    pub direction: Direction,
}

/// The values at a place of two rows by a direction; past its end a row has NULLs.
fn compare_at(direction: Direction, a: &[Value], b: &[Value], at: usize) -> Ordering
    ensures { result ≡ directed_cmp (direction_of direction) (value_at (map datum_of a.now) at) (value_at (map datum_of b.now) at) }
{
    let null = Value::Null;
    compare_by(
        direction,
        a.get(at).unwrap_or(&null),
        b.get(at).unwrap_or(&null),
    )
}

/// Rows by the first value of ORDER BY in which they differ, each by its direction.
pub fn compare_rows(order: &[ResultKey], a: &[Value], b: &[Value]) -> Ordering
    ensures { result ≡ keys_cmp (directions order.now) (key_values order.now (map datum_of a.now)) (key_values order.now (map datum_of b.now)) }
{
    for at in 0..order.len() {
        let key = order[at];
        let ordering = compare_at(key.direction, a, b, key.at);
        if ordering != Ordering::Equal {
            return ordering;
        }
    }
    Ordering::Equal
}

/// Whether ranks tell the whole order of rows: they are put in order by one value, which is a number or NULL in each.
fn are_ranked(order: &[ResultKey], rows: &[Vec<Value>]) -> bool
    ensures { IsTrue result → AreRanked order.now (rows_data rows.now) }
{
    if order.len() != 1 {
        return false;
    }
    let at = order[0].at;
    for row in rows {
        if !is_number_at(row.as_slice(), at) {
            return false;
        }
    }
    true
}

/// The rank of the first value that a row is put in order by.
fn first_rank(order: &[ResultKey], row: &[Value]) -> Rank
    ensures { result ≡ first_rank order.now (map datum_of row.now) }
{
    match order.first() {
        Some(key) => rank_at(key.direction, row, key.at),
        None => Rank { class: 0, bits: 0 },
    }
}

/// Puts rows in order; those that ORDER BY leaves equal stay as they were.
pub fn sort_rows(order: &[ResultKey], rows: &mut Vec<Vec<Value>>) -> Result<(), AllocError>
    ensures same { IsPermutation rows.old.items rows.new.items }
    ensures sorted { OnOk result (IsSortedByKey (λ row. key_values order.now (map datum_of row.items)) (keys_cmp (directions order.now)) rows.new.items) }
{
    let ranked = are_ranked(order, rows.as_slice());
    // Ranks stand side by side in memory, so that most of the order is found without a look at the rows.
    rows.sort_by_cached_key(|row| first_rank(order, row.as_slice()))?;
    if ranked {
        return Ok(());
    }
    rows.sort_by(|a, b| compare_rows(order, a.as_slice(), b.as_slice()))
}
