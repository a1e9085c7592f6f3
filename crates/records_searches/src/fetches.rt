//! The row that an entry of an index leads to.
ghost use Rattle.std.specs.Prelude.{◌≡◌, ◌≢◌, ◌⊎◌, ◌<◌, ◌≤◌, ℤ, All, IfErr, IfNone, IfSome, List, MatchResult, Some, length, map, slice_get};
ghost use Rattle.values.specs.Datum.{Datum, datum_of, datum_of_ref, int};
ghost use Rattle.values.specs.Row.{Row};
ghost use Rattle.pager.specs.Calls.{IsReadFault, ReadsPages, ReadsTreePages};
ghost use Rattle.records.specs.Record.{IsRecord};
ghost use Rattle.btree.specs.declared.image.kind.TreeKind.TheVariants as kind;
ghost use Rattle.btree.specs.image.Pages.{WhereSteady};
ghost use Rattle.btree_cursor.specs.cursor.Found.{AsksOneWay};
ghost use Rattle.btree_cursor.specs.cursor.Search.{IsUnchainedIndex};
ghost use Rattle.schema_tables.specs.TableData.{TableData};
ghost use Rattle.records_searches.specs.Coming.{HoldsRowOf, IsSearchFault};
ghost use Rattle.records_searches.specs.Entries.{IsRowOfKey, IsRowOfRowid, LeadsTo, kind_by, values_at};

use crate::finders::RowFinder;
use crate::ranges::put_value;
use crate::seeks::search_fault;
use btree_cursor::{Found, find_entry, find_row};
use pager::{Pager, Source};
use records::FieldReader;
use schema_tables::Table;
use std::alloc::Global;
use values::{Fault, Value, ValueRef};

/// The field of a record at a place; `None` where it has fewer, or the bytes are no record.
fn field_at(bytes: &[u8], at: usize) -> Option<ValueRef<'_>>
    ensures found { IfSome result (λ value. (values : List Datum) → IsRecord bytes.now values → slice_get values at ≡ Some (datum_of_ref value)) }
    ensures none { IfNone result ((values : List Datum) → IsRecord bytes.now values → length values ≤ at) }
{
    let mut fields = FieldReader::new(bytes)?;
    if !fields.skip(at) {
        return None;
    }
    fields.read()
}

/// The number in the field of a record at a place; `None` where there is none.
fn int_at(bytes: &[u8], at: usize) -> Option<i64>
    ensures found { IfSome result (λ number. (values : List Datum) → IsRecord bytes.now values → slice_get values at ≡ Some (int number)) }
    ensures none { IfNone result ((values : List Datum) (number : ℤ) → IsRecord bytes.now values → slice_get values at ≢ Some (int number)) }
{
    let value = field_at(bytes, at)?;
    match value {
        ValueRef::Int(number) => Some(number),
        ValueRef::Null => None,
        ValueRef::Text(_) => None,
        ValueRef::Blob(_) => None,
    }
}

/// The row of a table with the rowid that an entry has at a place. Its faults are `ReadFailed`, `NoMemory`, and `Changed`
/// where there is no such row.
fn row_by_rowid<S: Source>(
    pager: &mut Pager<S>,
    root: u32,
    at: usize,
    bytes: &[u8],
) -> Result<Found, Fault>
    ensures row { WhereSteady pager.old.state (λ pages. (table : TableData) (values : List Datum) (rowid : ℤ) (row : Row) → table.root ≡ root
        → IsRecord bytes.now values → slice_get values at ≡ Some (int rowid) → IsRowOfRowid pages table rowid row
        → MatchResult result (λ found. HoldsRowOf pages table found row) IsReadFault) }
    ensures only { IfErr result IsSearchFault }
    ensures asks { AsksOneWay pager.old.state pager.new.state kind.Table root }
    ensures reads { ReadsTreePages result pager.old.state pager.new.state }
{
    let Some(rowid) = int_at(bytes, at) else {
        return Err(Fault::Changed);
    };
    match find_row(pager, root, rowid) {
        Ok(Some(found)) => Ok(found),
        Ok(None) => Err(Fault::Changed),
        Err(fault) => Err(search_fault(fault)),
    }
}

/// Puts the fields of an entry at these places over the values of an earlier one, in their order. Its faults are `NoMemory`,
/// and `Changed` where the entry has no such fields.
fn put_key(alloc: Global, bytes: &[u8], places: &[usize], key: &mut Vec<Value>) -> Result<(), Fault>
    ensures key { (values : List Datum) → IsRecord bytes.now values → All (λ at. at < length values) places.now
        → MatchResult result (λ _. map datum_of key.new.items ≡ values_at values places.now) (λ e. e ≡ Fault.NoMemory) }
    ensures only { IfErr result (λ e. (e ≡ Fault.NoMemory) ⊎ (e ≡ Fault.Changed)) }
{
    for (next, place) in places.iter().enumerate() {
        let Some(value) = field_at(bytes, *place) else {
            return Err(Fault::Changed);
        };
        put_value(alloc, key, next, value)?;
    }
    key.truncate(places.len());
    Ok(())
}

/// The row of a table with the PRIMARY KEY that an entry has at these places. `key` is memory for it. Its faults are
/// `ReadFailed`, `NoMemory`, and `Changed` where there is no such row.
fn row_by_key<S: Source>(
    alloc: Global,
    pager: &mut Pager<S>,
    root: u32,
    places: &[usize],
    bytes: &[u8],
    key: &mut Vec<Value>,
) -> Result<Found, Fault>
    ensures row { WhereSteady pager.old.state (λ pages. (table : TableData) (values : List Datum) (row : Row) → table.root ≡ root
        → IsRecord bytes.now values → All (λ at. at < length values) places.now → IsRowOfKey pages table (values_at values places.now) row
        → MatchResult result (λ found. HoldsRowOf pages table found row) IsReadFault) }
    ensures only { IfErr result IsSearchFault }
    ensures asks { AsksOneWay pager.old.state pager.new.state kind.Index root }
    ensures unchained { WhereSteady pager.old.state (λ pages. IsUnchainedIndex pages root
        → pager.new.state.chained ≡ pager.old.state.chained) }
    ensures reads { ReadsPages result pager.old.state pager.new.state }
{
    put_key(alloc, bytes, places, key)?;
    match find_entry(alloc, pager, root, &[], key.as_slice()) {
        Ok(Some(found)) => Ok(found),
        Ok(None) => Err(Fault::Changed),
        Err(fault) => Err(search_fault(fault)),
    }
}

/// The row of a table that an entry of an index leads to, whose record has these bytes. `key` is memory for its PRIMARY KEY.
/// No more pages of the table's tree are asked for than one way down to a leaf has. Its faults are `ReadFailed`, `NoMemory`, and
/// `Changed`, which no index gives that is stored as it was checked.
pub(crate) fn row_of_entry<S: Source>(
    alloc: Global,
    pager: &mut Pager<S>,
    table: &Table,
    finder: &RowFinder,
    bytes: &[u8],
    key: &mut Vec<Value>,
) -> Result<Found, Fault>
    ensures row { WhereSteady pager.old.state (λ pages. (values : List Datum) (row : Row) → IsRecord bytes.now values
        → LeadsTo pages table.now finder.now values row
        → MatchResult result (λ found. HoldsRowOf pages table.now found row) IsReadFault) }
    ensures only { IfErr result IsSearchFault }
    ensures asks { AsksOneWay pager.old.state pager.new.state (kind_by finder.now) table.now.root }
    ensures unchained { WhereSteady pager.old.state (λ pages. (kind_by finder.now ≡ kind.Index → IsUnchainedIndex pages table.now.root)
        → pager.new.state.chained ≡ pager.old.state.chained) }
    ensures reads { ReadsPages result pager.old.state pager.new.state }
{
    let root = table.root();
    match finder {
        RowFinder::Rowid(at) => row_by_rowid(pager, root, *at, bytes),
        RowFinder::Key(places) => row_by_key(alloc, pager, root, places.as_slice(), bytes, key),
    }
}
