//! The entry that a row of a table requires in an index.
ghost use Rattle.std.specs.Prelude.{◌≡◌, ◌↔◌, ◌++◌, ℕ, Contains, IfErr, IfOk, IsTrue, List, MatchResult, OnOk, map, slice_index_or};
ghost use Rattle.values.specs.Datum.{Datum, datum_of, null};
ghost use Rattle.pager.specs.Calls.{IsReadFault, ReadsPages};
ghost use Rattle.btree.specs.declared.image.kind.TreeKind.TheVariants.{Index};
ghost use Rattle.btree.specs.image.Pages.{WhereSteady};
ghost use Rattle.btree.specs.image.Shape.{places_under};
ghost use Rattle.btree.specs.image.Tree.{Place};
ghost use Rattle.integrity_trees.specs.wanted_entries.Wanted.{entry_of, values_at};
ghost use Rattle.btree_cursor.specs.cursor.Search.{IsIndexFault, IsSearchableIndex};
ghost use Rattle.integrity_indexes.specs.index_rows.Entries.{indexed_by};
ghost use Rattle.integrity_indexes.specs.index_rows.Rows.{rowless};

use crate::index_rows::index::TableIndex;
use integrity_trees::has_entry;
use pager::{Pager, Source};
use records_tables::RowView;
use std::alloc::{AllocError, Global};
use values::{Fault, Row, Value};

/// The value of a column of a row, NULL where the row lacks it.
fn value_at(alloc: Global, row: &RowView<'_>, place: usize) -> Result<Value, AllocError>
    ensures { IfOk result (λ value. datum_of value ≡ slice_index_or row.now place null) }
{
    if place < row.count() {
        row.value(place).to_value(alloc)
    } else {
        Ok(Value::Null)
    }
}

/// Puts the values of these columns of a row behind others, NULL for one that the row lacks.
fn push_values(
    alloc: Global,
    entry: &mut Row,
    row: &RowView<'_>,
    places: &[usize],
) -> Result<(), AllocError>
    ensures { OnOk result (entry.new ≡ entry.old ++ values_at row.now places.now) }
{
    for i in 0..places.len() {
        let value = value_at(alloc, row, places[i])?;
        entry.push(value)?;
    }
    Ok(())
}

/// The entry that a row wants in an index: the values of the columns, and behind them its rowid, or without one those of the
/// columns that the index has there.
fn wanted_entry(
    alloc: Global,
    row: &RowView<'_>,
    rowid: Option<i64>,
    index: &TableIndex<'_>,
) -> Result<Row, AllocError>
    ensures { IfOk result (λ entry. entry ≡ entry_of (indexed_by index.now) (record { rowid = rowid; row = row.now })) }
{
    let mut entry = Row::new(alloc);
    push_values(alloc, &mut entry, row, index.places)?;
    match rowid {
        Some(rowid) => entry.push(Value::Int(rowid))?,
        None => push_values(alloc, &mut entry, row, index.others)?,
    }
    Ok(entry)
}

/// Whether an index has the entry that a row of its table wants. (Database File Format, section 2.3 "Representation Of SQL
/// Indices")
///
/// # Errors
///
/// Those of `integrity_trees::has_entry`.
pub fn has_wanted<S: Source>(
    alloc: Global,
    pager: &mut Pager<S>,
    row: &RowView<'_>,
    rowid: Option<i64>,
    index: &TableIndex<'_>,
) -> Result<bool, Fault>
    ensures found { WhereSteady pager.old.state (λ pages. (values : Place → List Datum) (levels : ℕ)
        → IsSearchableIndex pages index.now.descends.now values levels index.now.root
        → MatchResult result (λ found. IsTrue found ↔ Contains (map values (places_under pages Index levels index.now.root))
        (entry_of (indexed_by index.now) (record { rowid = rowid; row = row.now }))) IsReadFault) }
    ensures only { IfErr result (IsIndexFault index.now.root) }
    ensures reads { ReadsPages result pager.old.state pager.new.state }
{
    let wanted = wanted_entry(alloc, row, rowid, index)?;
    has_entry(alloc, pager, index.root, index.descends, &wanted)
}

/// A copy of a value of a row, NULL where the row lacks it.
fn copy_at(alloc: Global, row: &[Value], place: usize) -> Result<Value, AllocError>
    ensures { IfOk result (λ value. datum_of value ≡ slice_index_or (map datum_of row.now) place null) }
{
    match row.get(place) {
        Some(value) => value.as_ref().to_value(alloc),
        None => Ok(Value::Null),
    }
}

/// Puts copies of the values of these columns of a row behind others, NULL for one that the row lacks.
fn push_copies(
    alloc: Global,
    entry: &mut Row,
    row: &[Value],
    places: &[usize],
) -> Result<(), AllocError>
    ensures { OnOk result (entry.new ≡ entry.old ++ values_at (map datum_of row.now) places.now) }
{
    for i in 0..places.len() {
        let value = copy_at(alloc, row, places[i])?;
        entry.push(value)?;
    }
    Ok(())
}

/// The entry that a row without a rowid wants in an index.
fn copied_entry(alloc: Global, row: &[Value], index: &TableIndex<'_>) -> Result<Row, AllocError>
    ensures { IfOk result (λ entry. entry ≡ entry_of (indexed_by index.now) (rowless (map datum_of row.now))) }
{
    let mut entry = Row::new(alloc);
    push_copies(alloc, &mut entry, row, index.places)?;
    push_copies(alloc, &mut entry, row, index.others)?;
    Ok(entry)
}

/// Whether an index has the entry that a row without a rowid wants. (Database File Format, section 2.4 "Representation Of WITHOUT
/// ROWID Tables")
pub(crate) fn has_copied<S: Source>(
    alloc: Global,
    pager: &mut Pager<S>,
    row: &[Value],
    index: &TableIndex<'_>,
) -> Result<bool, Fault>
    ensures found { WhereSteady pager.old.state (λ pages. (values : Place → List Datum) (levels : ℕ)
        → IsSearchableIndex pages index.now.descends.now values levels index.now.root
        → MatchResult result (λ found. IsTrue found ↔ Contains (map values (places_under pages Index levels index.now.root))
        (entry_of (indexed_by index.now) (rowless (map datum_of row.now)))) IsReadFault) }
    ensures only { IfErr result (IsIndexFault index.now.root) }
    ensures reads { ReadsPages result pager.old.state pager.new.state }
{
    let wanted = copied_entry(alloc, row, index)?;
    has_entry(alloc, pager, index.root, index.descends, &wanted)
}
