//! A batch of entries, in which one is looked for by its key.
ghost use Rattle.std.specs.Prelude.{◌≡◌, ◌<◌, ◌≤◌, ◌↔◌, ◌++◌, ◌∷◌, [], ℕ, Contains, IfNone, IfOk, IfSome, IsFalse, IsTrue, List, OnErr, length, slice_range, sum_by};
ghost use Rattle.integrity_indexes.specs.declared.entry_batches.batch.Slot.{Slot};
ghost use Rattle.integrity_indexes.specs.entry_batches.Batches.{AreBelow, Ascend, ComeBefore, HasKeyAt, IsCut, code_at, last_end};

use std::alloc::{AllocError, Global};
use std::marker::Model;

/// The key of an entry, and where its code ends.
#[derive(Clone, Copy, Debug)]
pub(crate) struct Slot {
    pub(crate) key: i64,
    pub(crate) end: usize,
}

/// The place at which a key stands where the keys of all slots follow one another, if it stands there.
fn guess(slots: &[Slot], key: i64) -> Option<usize>
    ensures { IfSome result (HasKeyAt slots.now key) }
{
    let first = slots.first()?;
    let Ok(place) = usize::try_from(key.wrapping_sub(first.key)) else {
        return None;
    };
    if place < slots.len() && slots[place].key == key {
        Some(place)
    } else {
        None
    }
}

/// The place of a key among slots whose keys ascend.
fn search(slots: &[Slot], key: i64) -> Option<usize>
    requires { Ascend slots.now }
    ensures found { IfSome result (HasKeyAt slots.now key) }
    ensures none { IfNone result ((place : ℕ) → ¬ HasKeyAt slots.now key place) }
{
    let mut low = 0;
    let mut high = slots.len();
    while low < high {
        let middle = low + (high - low) / 2;
        if slots[middle].key < key {
            low = middle + 1;
        } else {
            high = middle;
        }
    }
    if low < slots.len() && slots[low].key == key {
        Some(low)
    } else {
        None
    }
}

/// The place of a key among slots whose keys ascend: at once where they follow one another.
fn find(slots: &[Slot], key: i64) -> Option<usize>
    requires { Ascend slots.now }
    ensures found { IfSome result (HasKeyAt slots.now key) }
    ensures none { IfNone result ((place : ℕ) → ¬ HasKeyAt slots.now key place) }
{
    match guess(slots, key) {
        Some(place) => Some(place),
        None => search(slots, key),
    }
}

/// Where the code of the entry at a place begins and ends, within so many bytes.
fn bounds_of(slots: &[Slot], place: usize, most: usize) -> (usize, usize)
    requires within { place < length slots.now }
    requires cut { IsCut 0 slots.now most }
    ensures up { result.0 ≤ result.1 }
    ensures most { result.1 ≤ most }
    ensures code { (codes : List ℕ) → slice_range codes result.0 result.1 ≡ code_at 0 slots.now codes place }
{
    let end = slots[place].end;
    if place == 0 {
        (0, end)
    } else {
        (slots[place - 1].end, end)
    }
}

/// The code of the entry at a place.
fn code_of<'b>(slots: &[Slot], codes: &'b [u8], place: usize) -> &'b [u8]
    requires within { place < length slots.now }
    requires cut { IsCut 0 slots.now (length codes.now) }
    ensures { result.now ≡ code_at 0 slots.now codes.now place }
{
    let (start, end) = bounds_of(slots, place, codes.len());
    &codes[start..end]
}

/// Whether two codes are the same.
fn is_same(one: &[u8], other: &[u8]) -> bool
    ensures { IsTrue result ↔ (one.now ≡ other.now) }
{
    one == other
}

/// Where the code of the last of some entries ends.
fn end_of(slots: &[Slot]) -> usize
    ensures { result ≡ last_end 0 slots.now }
{
    match slots.last() {
        Some(slot) => slot.end,
        None => 0,
    }
}

/// Whether a key is above those of all entries.
fn is_above(slots: &[Slot], key: i64) -> bool
    requires { Ascend slots.now }
    ensures { IsTrue result ↔ AreBelow key slots.now }
{
    match slots.last() {
        Some(slot) => slot.key < key,
        None => true,
    }
}

/// Entries of an index, each by the rowid of its row, which ascend, and by the code of its values.
#[derive(Debug, Drop)]
pub struct Batch {
    slots: Vec<Slot>,
    codes: Vec<u8>,
}

impl Model for Batch {
    ghost use Rattle.std.specs.Prelude.{List};
    ghost use Rattle.integrity_trees.specs.wanted_entries.Bags.{Coded};
    ghost use Rattle.integrity_indexes.specs.entry_batches.Batches.{IsBatch, coded};

    ghost Value = { List Coded };

    ghost view = { λ b. coded 0 b.slots.items b.codes.items };

    ghost invariant = { λ b. IsBatch b.slots.items b.codes.items };
}

impl Batch {
    /// A batch of no entries.
    pub fn new(alloc: Global) -> Batch
        ensures { result ≡ [] }
    {
        Batch {
            slots: Vec::new(alloc),
            codes: Vec::new(alloc),
        }
    }

    /// A batch of no entries, with room for so many, and for so many bytes of their codes.
    pub fn with_capacity(alloc: Global, entries: usize, bytes: usize) -> Result<Batch, AllocError>
        ensures { IfOk result (λ batch. batch ≡ []) }
    {
        let slots = Vec::with_capacity(alloc, entries)?;
        let codes = Vec::with_capacity(alloc, bytes)?;
        Ok(Batch { slots, codes })
    }

    /// How many entries it has.
    #[inline]
    pub fn count(&self) -> usize
        ensures { result ≡ length self.now }
    {
        self.slots.len()
    }

    /// How many bytes the codes of its entries have.
    #[inline]
    pub fn code_bytes(&self) -> usize
        ensures { result ≡ sum_by (λ entry. length entry.code) self.now }
    {
        end_of(self.slots.as_slice())
    }

    /// Puts an entry behind the others, where its key is above theirs; tells whether it is. An error leaves the batch as it
    /// was.
    pub fn add(&mut self, key: i64, code: &[u8]) -> Result<bool, AllocError>
        ensures above { IfOk result (λ added. IsTrue added ↔ ComeBefore key self.old) }
        ensures added { IfOk result (λ added. (IsTrue added → self.new ≡ self.old ++ record { key = key; code = code.now } ∷ [])
            × (IsFalse added → self.new ≡ self.old)) }
        ensures err { OnErr result (self.new ≡ self.old) }
    {
        if !is_above(self.slots.as_slice(), key) {
            return Ok(false);
        }
        let start = end_of(self.slots.as_slice());
        self.codes.truncate(start);
        self.codes.extend_from_slice(code)?;
        self.slots.push(Slot {
            key,
            end: self.codes.len(),
        })?;
        Ok(true)
    }

    /// Whether it has an entry of this key with this code.
    pub fn has(&self, key: i64, code: &[u8]) -> bool
        ensures { IsTrue result ↔ Contains self.now (record { key = key; code = code.now }) }
    {
        let slots = self.slots.as_slice();
        match find(slots, key) {
            Some(place) => is_same(code_of(slots, self.codes.as_slice(), place), code),
            None => false,
        }
    }

    /// Takes all entries out.
    pub fn clear(&mut self)
        ensures { self.new ≡ [] }
    {
        self.slots.clear();
    }
}
