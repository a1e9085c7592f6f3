//! The sequence of a partition.
ghost use Rattle.std.specs.Prelude.{◌≡◌, All, IsPermutation, List, OnOk, length, map};
ghost use Rattle.std.specs.List.Sorted.{IsStableByKey};
ghost use Rattle.semantics.specs.Query.{SortTerm};
ghost use Rattle.semantics.specs.Valuation.{Valuation};
ghost use Rattle.semantics.specs.Windows as windows;
ghost use Rattle.resolver_terms.specs.SelectView.{direction_of};
ghost use Rattle.windows_groups.specs.window_order.Entries.{IsInWindowOrder, IsOf, IsSequence, entry_cmp, keys_of, view};

use crate::window_order::keys::compare_keys;
use crate::window_order::ranks::rank_at;
use sql_reader_syntax::Direction;
use std::alloc::AllocError;
use std::cmp::Ordering;
use values::Value;

/// A row of a partition.
#[derive(Drop)]
pub struct Entry<'a> {
    pub row: &'a [Value],
    /// The values of the window's ORDER BY on it.
    pub keys: Vec<Value>,
    /// Its place among the rows that are given.
    pub index: usize,
}

/// Rows by the values of ORDER BY, and then by the whole row.
fn compare_entries(directions: &[Direction], a: &Entry, b: &Entry) -> Ordering
    ensures { result ≡ entry_cmp (map direction_of directions.now) (view a.now) (view b.now) }
{
    match compare_keys(directions, a.keys.as_slice(), b.keys.as_slice()) {
        Ordering::Equal => a.row.cmp(b.row),
        order => order,
    }
}

/// Whether the ranks of the first keys ascend already.
fn are_in_order(direction: Direction, entries: &[Entry]) -> bool {
    for at in 1..entries.len() {
        let one = rank_at(direction, entries[at - 1].keys.as_slice(), 0);
        let next = rank_at(direction, entries[at].keys.as_slice(), 0);
        if next < one {
            return false;
        }
    }
    true
}

/// Puts entries in the order of the ranks of their first keys; those that tie stay as they were. Ranks stand side by side in
/// memory, so that most of the order is found without a look at the keys.
fn sort_by_ranks(directions: &[Direction], entries: &mut Vec<Entry>) -> Result<(), AllocError>
    ensures same { IsPermutation entries.old.items entries.new.items }
    ensures stable { IsStableByKey view (entry_cmp (map direction_of directions.now)) entries.old.items entries.new.items }
{
    let Some(first) = directions.first() else {
        return Ok(());
    };
    let direction = *first;
    if are_in_order(direction, entries.as_slice()) {
        return Ok(());
    }
    entries.sort_by_cached_key(|entry| rank_at(direction, entry.keys.as_slice(), 0))
}

/// Puts the rows of a partition in their sequence; equal rows stay as they were. (Window Functions)
pub fn sort(directions: &[Direction], entries: &mut Vec<Entry>) -> Result<(), AllocError>
    ensures same { IsPermutation entries.old.items entries.new.items }
    ensures stable { IsStableByKey view (entry_cmp (map direction_of directions.now)) entries.old.items entries.new.items }
    ensures in_order { OnOk result (All (λ (e : Entry). length e.keys.items ≡ length (map direction_of directions.now)) entries.old.items → IsInWindowOrder (map direction_of directions.now) (keys_of entries.new.items)) }
    ensures sequence { OnOk result ((value : Valuation) (order : List SortTerm) → windows.directions order ≡ map direction_of directions.now
        → All (IsOf value order) entries.old.items → IsSequence value order entries.old.items entries.new.items) }
{
    sort_by_ranks(directions, entries)?;
    entries.sort_by(|a, b| compare_entries(directions, a, b))
}
