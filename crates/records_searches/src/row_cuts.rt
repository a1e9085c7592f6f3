//! A position among the rows of a table, by their rowids.
ghost use Rattle.std.specs.Prelude.{◌≡◌, ◌≤◌, ℤ, [], ◌∷◌, length, List, map};
ghost use Rattle.values.specs.Datum.{Datum, datum_of, datum_of_ref, int};
ghost use Rattle.btree_cursor.specs.key_ranges.Ranges.{behind_values, is_before};
ghost use Rattle.btree_cursor.specs.key_ranges.View.{cut};
ghost use Rattle.records_searches.specs.RowCuts.{IsRowid, row_comes_before};

use btree_cursor::End;
use values::{Value, ValueRef};

/// A position among the rows of a table, by their rowids.
#[derive(Clone, Copy, Debug)]
pub(crate) enum RowCut {
    /// Before the row with a rowid or, where it says so, after it.
    At(i64, bool),
    /// After all rows.
    Last,
}

impl RowCut {
    /// The position that a value is, or the one after it. NULL comes before each rowid, a text or a blob after it. (Datatypes In
    /// SQLite, "Sort Order")
    fn of(value: ValueRef<'_>, behind: bool) -> RowCut
        ensures before { (rowid : ℤ) → IsRowid rowid
            → is_before [] (record { key = datum_of_ref value.entry ∷ []; behind = behind }) (int rowid ∷ []) ≡ row_comes_before result rowid }
        ensures at { (rowid : ℤ) → datum_of_ref value.entry ≡ int rowid → result ≡ RowCut.At rowid behind }
    {
        match value {
            ValueRef::Int(rowid) => RowCut::At(rowid, behind),
            ValueRef::Null => RowCut::At(i64::MIN, false),
            ValueRef::Text(_) => RowCut::Last,
            ValueRef::Blob(_) => RowCut::Last,
        }
    }

    /// The position that an end of a range is.
    fn of_end(end: End<'_>) -> RowCut
        ensures { (rowid : ℤ) → IsRowid rowid → is_before [] (cut end.entry) (int rowid ∷ []) ≡ row_comes_before result rowid }
    {
        match end.value {
            Some(value) => RowCut::of(value, end.behind),
            None if end.behind => RowCut::Last,
            None => RowCut::At(i64::MIN, false),
        }
    }

    /// The position that a key of one column is: a value that rows have to have, or an end of their range.
    pub(crate) fn new(equal: &[Value], end: End<'_>) -> RowCut
        ensures before { (rowid : ℤ) → IsRowid rowid → length (behind_values (map datum_of equal.now) (cut end.entry)).key ≤ 1
            → is_before [] (behind_values (map datum_of equal.now) (cut end.entry)) (int rowid ∷ []) ≡ row_comes_before result rowid }
        ensures at { (rowid : ℤ) (others : List Datum) → map datum_of equal.now ≡ int rowid ∷ others → result ≡ RowCut.At rowid end.entry.behind }
    {
        match equal {
            [value, ..] => RowCut::of(value.as_ref(), end.behind),
            [] => RowCut::of_end(end),
        }
    }
}
