//! The entry that a walk met last, whether another comes after it, and what the entries show of their first columns.
ghost use Rattle.std.specs.Prelude.{◌≡◌, ◌≢◌, ◌<◌, ◌≤◌, ◌∷◌, IfErr, IfNone, IfOk, IfSome, IsFalse, IsTrue, List, None, OnOk, Some, [], length, suc, take};
ghost use Rattle.values.specs.Datum.{Datum};
ghost use Rattle.values.specs.Order.{datum_cmp};
ghost use Rattle.records.specs.Fields.{AreUnread};
ghost use Rattle.records.specs.Record.{IsRecord};
ghost use Rattle.btree_cursor.specs.key_ranges.Ranges.{directed, key_cmp};
ghost use Rattle.integrity_trees.specs.wanted_entries.Unique.{Agree};
ghost use Rattle.integrity_trees.specs.entry_prefixes.Counting.{IsCounted};
ghost use Rattle.integrity_trees.specs.index_walk.Checked.{IsIndexWalkFault};
ghost use Rattle.integrity_trees.specs.index_walk.Widths.{IsOfWidth};
ghost use Rattle.integrity_trees.specs.index_walk.Last.{CountsNext, Follows, FollowsNot, IsBefore};

use crate::entry_prefixes::Prefixes;
use crate::index_walk::tree::IndexTree;
use btree_cursor::descends_at;
use records::FieldReader;
use std::alloc::{AllocError, Global};
use std::cmp::Ordering;
use std::marker::Model;
use values::Fault;

/// How the next fields of two records stand in a column that descends or doesn't; `None` where one of them has none.
fn column_order(
    descends: bool,
    one: &mut FieldReader<'_>,
    other: &mut FieldReader<'_>,
) -> Option<Ordering>
    ensures found { IfSome result (λ order. (x y : Datum) (xs ys : List Datum) → AreUnread one.old (x ∷ xs)
        → AreUnread other.old (y ∷ ys)
        → (order ≡ directed descends (datum_cmp x y)) × AreUnread one.new xs × AreUnread other.new ys) }
    ensures none { IfNone result ((x y : Datum) (xs ys : List Datum) → AreUnread one.old (x ∷ xs)
        → ¬ AreUnread other.old (y ∷ ys)) }
{
    let first = one.read()?;
    let second = other.read()?;
    let order = first.cmp(&second);
    if descends {
        return Some(order.reverse());
    }
    Some(order)
}

/// In how many first columns the values of two records agree, of so many that are compared, and how these stand.
fn compare_keys(descends: &[bool], columns: usize, one: &[u8], other: &[u8]) -> (usize, Ordering)
    ensures order { (x y : List Datum) → IsRecord one.now x → columns ≤ length x → IsRecord other.now y → columns ≤ length y
        → result.1 ≡ key_cmp descends.now (take columns x) (take columns y) }
    ensures agree { (x y : List Datum) → IsRecord one.now x → columns ≤ length x → IsRecord other.now y → columns ≤ length y
        → Agree result.0 x y }
    ensures differ { (x y : List Datum) → IsRecord one.now x → columns ≤ length x → IsRecord other.now y → columns ≤ length y
        → result.0 < columns → ¬ Agree (suc result.0) x y }
{
    let Some(mut first) = FieldReader::new(one) else {
        return (0, Ordering::Equal);
    };
    let Some(mut second) = FieldReader::new(other) else {
        return (0, Ordering::Equal);
    };
    for at in 0..columns {
        let Some(order) = column_order(descends_at(descends, at), &mut first, &mut second) else {
            return (at, Ordering::Equal);
        };
        if order.is_ne() {
            return (at, order);
        }
    }
    (columns, Ordering::Equal)
}

/// The entry that a walk met last, and what the entries up to it show of their first columns. Its record is kept in a buffer
/// that grows to the longest one.
#[derive(Debug, Drop)]
pub(crate) struct LastEntry {
    page: Option<u32>,
    bytes: Vec<u8>,
    prefixes: Prefixes,
}

impl Model for LastEntry {
    ghost use Rattle.integrity_trees.specs.index_walk.Last.{LastData};

    ghost Value = { LastData };

    ghost view = { λ last. record { page = last.page; bytes = last.bytes.items; prefixes = last.prefixes } };
}

impl LastEntry {
    /// Before the first entry, where so many first columns are counted.
    pub(crate) fn new(alloc: Global, width: usize) -> Result<LastEntry, AllocError>
        ensures none { IfOk result (λ last. last.page ≡ None) }
        ensures long { IfOk result (λ last. length last.prefixes.distinct.items ≡ width) }
        ensures counted { IfOk result (λ last. IsCounted [] last.prefixes) }
    {
        Ok(LastEntry {
            page: None,
            bytes: Vec::new(alloc),
            prefixes: Prefixes::none(alloc, width)?,
        })
    }

    /// The page that it stands on.
    pub(crate) fn page(&self) -> Option<u32>
        ensures { result ≡ self.now.page }
    {
        self.page
    }

    /// What the entries show.
    pub(crate) fn into_prefixes(self) -> Prefixes
        ensures { result ≡ self.prefixes }
    {
        let LastEntry {
            page: _,
            bytes: _,
            prefixes,
        } = self;
        prefixes
    }

    /// Keeps a record of page `n` in the place of it.
    fn put(&mut self, n: u32, bytes: &[u8]) -> Result<(), AllocError>
        ensures { OnOk result (self.new ≡ record { page = Some n; bytes = bytes.now; prefixes = self.old.prefixes }) }
    {
        self.bytes.clear();
        self.bytes.extend_from_slice(bytes)?;
        self.page = Some(n);
        Ok(())
    }

    /// Counts a record that comes after it; the answer is `false` where there is one that it doesn't come after.
    fn count(&mut self, tree: &IndexTree<'_>, bytes: &[u8]) -> bool
        ensures same { (self.new.page ≡ self.old.page) × (self.new.bytes ≡ self.old.bytes) }
        ensures after { IsTrue result → (x y : List Datum) → self.old.page ≢ None → IsRecord self.old.bytes x
            → IsOfWidth tree.now.widths x → IsRecord bytes.now y → IsOfWidth tree.now.widths y
            → IsBefore tree.now.widths tree.now.descends.now x y }
        ensures counts { IsTrue result → CountsNext tree.now.widths self.old bytes.now self.new.prefixes }
        ensures some { IsFalse result → self.old.page ≢ None }
        ensures not { IsFalse result → (x y : List Datum) → IsRecord self.old.bytes x → IsOfWidth tree.now.widths x
            → IsRecord bytes.now y → IsOfWidth tree.now.widths y → ¬ IsBefore tree.now.widths tree.now.descends.now x y }
    {
        if self.page.is_none() {
            self.prefixes.add_first();
            return true;
        }
        let (agreeing, order) = compare_keys(
            tree.descends,
            tree.widths.key,
            self.bytes.as_slice(),
            bytes,
        );
        if !order.is_lt() {
            return false;
        }
        self.prefixes.add_later(bytes, agreeing);
        true
    }

    /// Tests that a record of page `n` comes after it, counts it, and keeps it. Its faults are `BadOrder` of a page that is to be
    /// blamed, and `NoMemory`.
    pub(crate) fn follow(
        &mut self,
        tree: &IndexTree<'_>,
        bytes: &[u8],
        n: u32,
        blamed: u32,
    ) -> Result<(), Fault>
        ensures behind { OnOk result (Follows tree.now.widths tree.now.descends.now self.old bytes.now n self.new) }
        ensures fault { IfErr result (FollowsNot tree.now.widths tree.now.descends.now self.old bytes.now blamed) }
        ensures only { IfErr result IsIndexWalkFault }
    {
        if !self.count(tree, bytes) {
            return Err(Fault::BadOrder(blamed));
        }
        self.put(n, bytes)?;
        Ok(())
    }
}
