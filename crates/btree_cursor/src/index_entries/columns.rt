//! What is sought in an index, and how it compares with the fields of an entry.
ghost use Rattle.std.specs.Prelude.{◌≡◌, ◌∷◌, [], drop, IfNone, IfSome, List};
ghost use Rattle.std.specs.declared.cmp.Ordering.TheVariants.{Equal};
ghost use Rattle.values.specs.Datum.{Datum, datum_of_ref};
ghost use Rattle.records.specs.Fields.{AreUnread};
ghost use Rattle.btree_cursor.specs.key_ranges.Ranges.{key_cmp, stands_before};
ghost use Rattle.btree_cursor.specs.index_entries.Sought.{sought};

use crate::key_ranges::{End, descends_at};
use records::FieldReader;
use std::cmp::Ordering;
use values::{Value, ValueRef};

/// What is sought in an index: an end of a range of its entries, behind the values of the first columns. A key may be the
/// first columns of an entry, and is compared by these alone.
#[derive(Clone, Copy, Debug)]
pub struct IndexKey<'a> {
    /// Which columns of the index descend; further ones ascend.
    pub descends: &'a [bool],
    /// The values of the first columns.
    pub equal: &'a [Value],
    /// The end of the range among the entries that have these.
    pub end: End<'a>,
}

/// How a value stands to the next field of an entry, in a column that descends or doesn't; it is greater where the entry has
/// no more fields. `None` where the entry is no record.
fn field_order(descends: bool, value: ValueRef<'_>, entry: &mut FieldReader<'_>) -> Option<Ordering>
    ensures found { IfSome result (λ order. (fields : List Datum) → AreUnread entry.old fields
        → order ≡ key_cmp (descends ∷ []) (datum_of_ref value.entry ∷ []) fields) }
    ensures passed { IfSome result (λ order. (fields : List Datum) → AreUnread entry.old fields
        → order ≡ Equal → AreUnread entry.new (drop 1 fields)) }
    ensures none { IfNone result ((fields : List Datum) → ¬ AreUnread entry.old fields) }
{
    let Some(field) = entry.read() else {
        if entry.is_done() {
            return Some(Ordering::Greater);
        }
        return None;
    };
    let order = value.cmp(&field);
    if descends {
        return Some(order.reverse());
    }
    Some(order)
}

impl<'a> IndexKey<'a> {
    /// How the key stands to an entry with these fields, of which those behind its last column aren't read; `None` where the
    /// entry is no record.
    pub(crate) fn order(&self, entry: &mut FieldReader<'_>) -> Option<Ordering>
        ensures found { IfSome result (λ order. (fields : List Datum) → AreUnread entry.old fields
            → order ≡ key_cmp self.now.descends.now (sought self.now).key fields) }
        ensures none { IfNone result ((fields : List Datum) → ¬ AreUnread entry.old fields) }
    {
        for (at, value) in self.equal.iter().enumerate() {
            let order = field_order(descends_at(self.descends, at), value.as_ref(), entry)?;
            if order != Ordering::Equal {
                return Some(order);
            }
        }
        let Some(value) = self.end.value else {
            return Some(Ordering::Equal);
        };
        field_order(descends_at(self.descends, self.equal.len()), value, entry)
    }

    /// Whether an entry to which the key stands so comes before what is sought.
    pub(crate) fn is_behind(&self, order: Ordering) -> bool
        ensures { result ≡ stands_before (sought self.now).behind order }
    {
        match order {
            Ordering::Less => false,
            Ordering::Equal => self.end.behind,
            Ordering::Greater => true,
        }
    }
}
