//! Whether two entries agree in their first values.
ghost use Rattle.std.specs.Prelude.{◌≡◌, ◌≢◌, ◌<◌, ◌≤◌, ◌↔◌, ◌∷◌, IsFalse, IsTrue, List, length, suc, take};
ghost use Rattle.values.specs.Datum.{Datum, datum_of_ref, null};
ghost use Rattle.values.specs.Row.{Row};
ghost use Rattle.records.specs.Fields.{AreUnread};
ghost use Rattle.records.specs.Record.{IsRecord};
ghost use Rattle.integrity_trees.specs.wanted_entries.Unique.{Agree, HasNoNull};

use records::FieldReader;
use values::ValueRef;

/// Whether two values are the same.
#[inline]
fn are_equal(one: ValueRef<'_>, other: ValueRef<'_>) -> bool
    ensures { IsTrue result ↔ (datum_of_ref one.entry ≡ datum_of_ref other.entry) }
{
    one.cmp(&other).is_eq()
}

/// Whether the next fields of two records are there, and the same.
#[inline]
fn do_next_agree(one: &mut FieldReader<'_>, other: &mut FieldReader<'_>) -> bool
    ensures agree { IsTrue result → (x y : Datum) (xs ys : List Datum) → AreUnread one.old (x ∷ xs) → AreUnread other.old (y ∷ ys)
        → (x ≡ y) × AreUnread one.new xs × AreUnread other.new ys }
    ensures differ { IsFalse result → (x y : Datum) (xs ys : List Datum) → AreUnread one.old (x ∷ xs) → AreUnread other.old (y ∷ ys)
        → x ≢ y }
{
    let Some(first) = one.read() else {
        return false;
    };
    let Some(second) = other.read() else {
        return false;
    };
    are_equal(first, second)
}

/// In how many of so many first columns two entries agree, from the first one on, where these bytes are their records.
pub(crate) fn shared_columns(one: &[u8], other: &[u8], width: usize) -> usize
    ensures most { result ≤ width }
    ensures agree { (x y : Row) → IsRecord one.now x → width ≤ length x → IsRecord other.now y → width ≤ length y → Agree result x y }
    ensures differ { (x y : Row) → IsRecord one.now x → width ≤ length x → IsRecord other.now y → width ≤ length y
        → result < width → ¬ Agree (suc result) x y }
{
    let Some(mut first) = FieldReader::new(one) else {
        return 0;
    };
    let Some(mut second) = FieldReader::new(other) else {
        return 0;
    };
    for i in 0..width {
        if !do_next_agree(&mut first, &mut second) {
            return i;
        }
    }
    width
}

/// Whether a value is there.
#[inline]
fn is_given(value: ValueRef<'_>) -> bool
    ensures given { IsTrue result → datum_of_ref value.entry ≢ null }
    ensures not { IsFalse result → datum_of_ref value.entry ≡ null }
{
    !matches!(value, ValueRef::Null)
}

/// Whether the next field of a record is there, and isn't NULL.
#[inline]
fn is_next_given(fields: &mut FieldReader<'_>) -> bool
    ensures given { IsTrue result → (x : Datum) (xs : List Datum) → AreUnread fields.old (x ∷ xs)
        → (x ≢ null) × AreUnread fields.new xs }
    ensures not { IsFalse result → (x : Datum) (xs : List Datum) → AreUnread fields.old (x ∷ xs) → x ≡ null }
{
    let Some(value) = fields.read() else {
        return false;
    };
    is_given(value)
}

/// Whether none of so many first values of an entry is NULL, where these bytes are its record.
pub(crate) fn is_full(bytes: &[u8], width: usize) -> bool
    ensures { (row : Row) → IsRecord bytes.now row → width ≤ length row → IsTrue result ↔ HasNoNull (take width row) }
{
    let Some(mut fields) = FieldReader::new(bytes) else {
        return false;
    };
    for _passed in 0..width {
        if !is_next_given(&mut fields) {
            return false;
        }
    }
    true
}
