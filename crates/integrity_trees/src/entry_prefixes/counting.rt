//! What is counted of entries.
ghost use Rattle.std.specs.Prelude.{◌≡◌, ◌<◌, ◌≤◌, ◌+◌, ◌↔◌, ◌++◌, ◌∷◌, [], ℕ, false, true, IfOk, IsFalse, IsTrue, List, length, Option, Some, slice_get, suc, take};
ghost use Rattle.values.specs.Row.{Row};
ghost use Rattle.records.specs.Record.{IsRecord};
ghost use Rattle.values.specs.Bounds.{counted};
ghost use Rattle.integrity_trees.specs.wanted_entries.Unique.{Agree, HasNoNull};
ghost use Rattle.integrity_trees.specs.entry_prefixes.Counting.{EndsWith, IsCounted};
ghost use Rattle.integrity_trees.specs.entry_prefixes.Last.{IsLast};

use crate::entry_prefixes::agreement::{is_full, shared_columns};
use crate::entry_prefixes::last::LastRecord;
use std::alloc::{AllocError, Global};

/// What the entries of an index show. Counts stay at the greatest number.
#[derive(Debug, Drop)]
pub struct Prefixes {
    /// How many different values the first columns have, for each number of columns from one on.
    pub distinct: Vec<u64>,
    /// Whether two entries agree in all columns, none of which is NULL.
    pub repeats: bool,
}

/// Whether an entry that agrees in so many of its first columns with the one before it agrees in so many as are indexed, and
/// none of these is NULL.
fn repeats_last(bytes: &[u8], shared: usize, width: usize) -> bool
    ensures { (row : Row) → IsRecord bytes.now row → width ≤ length row
        → IsTrue result ↔ ((shared ≡ width) × HasNoNull (take width row)) }
{
    shared == width && is_full(bytes, width)
}

/// Counts an entry that differs from the one before it behind so many columns.
fn count_from(distinct: &mut [u64], shared: usize)
    ensures long { length distinct.new ≡ length distinct.old }
    ensures fewer { (columns count : ℕ) → columns < shared → slice_get distinct.old columns ≡ Some count
        → slice_get distinct.new columns ≡ Some count }
    ensures more { (columns count : ℕ) → shared ≤ columns → slice_get distinct.old columns ≡ Some count
        → slice_get distinct.new columns ≡ Some (counted (count + 1)) }
{
    for columns in shared..distinct.len() {
        distinct[columns] = distinct[columns].saturating_add(1);
    }
}

impl Prefixes {
    /// What no entry shows of so many first columns.
    pub(crate) fn none(alloc: Global, width: usize) -> Result<Prefixes, AllocError>
        ensures long { IfOk result (λ none. length none.distinct.items ≡ width) }
        ensures counted { IfOk result (IsCounted []) }
    {
        Ok(Prefixes {
            distinct: vec![in alloc; 0; width]?,
            repeats: false,
        })
    }

    /// Counts the first entry.
    pub(crate) fn add_first(&mut self)
        ensures long { length self.new.distinct.items ≡ length self.old.distinct.items }
        ensures counted { (row : Row) → IsCounted [] self.old → IsCounted (row ∷ []) self.new }
    {
        count_from(self.distinct.as_mut_slice(), 0);
    }

    /// Counts an entry that comes after some others, with the last of which it agrees in so many first columns, where these
    /// bytes are its record. Where it agrees in more than are counted, it agrees in all of these.
    pub(crate) fn add_later(&mut self, bytes: &[u8], agreeing: usize)
        ensures long { length self.new.distinct.items ≡ length self.old.distinct.items }
        ensures counted { (rows : List Row) (one row : Row) → EndsWith rows (Some one) → IsRecord bytes.now row
            → length self.old.distinct.items ≤ length row → Agree agreeing one row
            → (agreeing < length self.old.distinct.items → ¬ Agree (suc agreeing) one row)
            → IsCounted rows self.old → IsCounted (rows ++ row ∷ []) self.new }
    {
        let width = self.distinct.len();
        let shared = agreeing.min(width);
        if repeats_last(bytes, shared, width) {
            self.repeats = true;
        }
        count_from(self.distinct.as_mut_slice(), shared);
    }

    /// Counts an entry that comes after some others, of which this is the last, where these bytes are its record.
    pub(crate) fn add(&mut self, last: &LastRecord, bytes: &[u8])
        ensures long { length self.new.distinct.items ≡ length self.old.distinct.items }
        ensures counted { (rows : List Row) (before : Option Row) (row : Row) → EndsWith rows before → IsLast last.now before
            → IsRecord bytes.now row → ((one : Row) → before ≡ Some one → length self.old.distinct.items ≤ length one)
            → length self.old.distinct.items ≤ length row
            → IsCounted rows self.old → IsCounted (rows ++ row ∷ []) self.new }
    {
        if !last.is_some() {
            self.add_first();
            return;
        }
        let shared = shared_columns(last.bytes(), bytes, self.distinct.len());
        self.add_later(bytes, shared);
    }
}
