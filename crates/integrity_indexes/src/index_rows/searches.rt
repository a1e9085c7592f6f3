//! Whether an index keeps a row of its table, and has the entry that the row requires.
ghost use Rattle.std.specs.Prelude.{ℕ, Contains, IfErr, List, MatchResult, map};
ghost use Rattle.values.specs.Datum.{Datum};
ghost use Rattle.values.specs.Row.{Row};
ghost use Rattle.pager.specs.Calls.{IsReadFault, ReadsPages};
ghost use Rattle.btree.specs.declared.image.kind.TreeKind.TheVariants.{Index};
ghost use Rattle.btree.specs.image.Pages.{WhereSteady};
ghost use Rattle.btree.specs.image.Shape.{places_under};
ghost use Rattle.btree.specs.image.Tree.{Place};
ghost use Rattle.btree.specs.Views.{cell_data};
ghost use Rattle.integrity_trees.specs.wanted_entries.Wanted.{KeyedRow, entry_of};
ghost use Rattle.btree_cursor.specs.cursor.Search.{IsSearchableIndex};
ghost use Rattle.records_tables.specs.stored_rows.Stored.{IsRowOf};
ghost use Rattle.integrity_trees.specs.table_walk.Walked.{IsWalkFault};
ghost use Rattle.records_tables.specs.primary_rows.Order.{IsOrderOf};
ghost use Rattle.integrity_indexes.specs.index_rows.Entries.{indexed_by};
ghost use Rattle.integrity_indexes.specs.index_rows.Kept.{Tells, condition_of, keeps_row};
ghost use Rattle.integrity_indexes.specs.index_rows.Rows.{IsKeyedRow, IsPrimaryRowOf, rowless};

use crate::index_rows::conditions::{is_kept, keeps};
use crate::index_rows::entries::{has_copied, has_wanted};
use crate::index_rows::index::TableIndex;
use crate::index_rows::rows::read_primary_row;
use btree::Cell;
use pager::{Pager, Source};
use records_tables::{RecordOrder, payload_of, read_row};
use schema_tables::{RowKey, Table};
use std::alloc::Global;
use values::Fault;

/// What an index has of a row of its table.
pub(crate) enum Lookup {
    /// Its condition leaves the row out.
    LeftOut,
    /// It keeps the row, and has the entry that it wants.
    Found,
    /// It keeps the row, and has no such entry.
    Missing,
}

/// Looks up the entry that a row of a table with rowids wants in an index, where the index keeps the row, which a cell of the
/// table is.
fn look_up_row<S: Source>(
    alloc: Global,
    pager: &mut Pager<S>,
    table: &Table,
    cell: &Cell<'_>,
    index: &TableIndex<'_>,
) -> Result<Lookup, Fault>
    ensures found { WhereSteady pager.old.state (λ pages. (row : Row) (values : Place → List Datum) (levels : ℕ)
        → IsRowOf pages table.now (cell_data cell.now) row → IsSearchableIndex pages index.now.descends.now values levels index.now.root
        → MatchResult result (λ found. Tells found (keeps_row (condition_of index.now) row)
        (Contains (map values (places_under pages Index levels index.now.root))
        (entry_of (indexed_by index.now) (record { rowid = cell.now.rowid; row = row })))) IsReadFault) }
    ensures only { IfErr result IsWalkFault }
    ensures reads { ReadsPages result pager.old.state pager.new.state }
{
    let bytes = payload_of(alloc, pager, cell, table.root())?;
    let row = read_row(alloc, table, cell.rowid, bytes.as_slice(), table.root())?;
    if !is_kept(alloc, index.condition, &row)? {
        return Ok(Lookup::LeftOut);
    }
    if has_wanted(alloc, pager, &row, cell.rowid, index)? {
        Ok(Lookup::Found)
    } else {
        Ok(Lookup::Missing)
    }
}

/// The same of a row of a table without rowids, which a cell of its tree is.
fn look_up_primary<S: Source>(
    alloc: Global,
    pager: &mut Pager<S>,
    table: &Table,
    order: &RecordOrder,
    cell: &Cell<'_>,
    index: &TableIndex<'_>,
) -> Result<Lookup, Fault>
    requires { IsOrderOf table.now order.now }
    ensures found { WhereSteady pager.old.state (λ pages. (row : Row) (values : Place → List Datum) (levels : ℕ)
        → IsPrimaryRowOf pages table.now (cell_data cell.now) row → IsSearchableIndex pages index.now.descends.now values levels index.now.root
        → MatchResult result (λ found. Tells found (keeps_row (condition_of index.now) row)
        (Contains (map values (places_under pages Index levels index.now.root)) (entry_of (indexed_by index.now) (rowless row)))) IsReadFault) }
    ensures only { IfErr result IsWalkFault }
    ensures reads { ReadsPages result pager.old.state pager.new.state }
{
    let bytes = payload_of(alloc, pager, cell, table.root())?;
    let row = read_primary_row(alloc, table, order, bytes.as_slice(), table.root())?;
    if !keeps(alloc, index.condition, row.as_slice())? {
        return Ok(Lookup::LeftOut);
    }
    if has_copied(alloc, pager, row.as_slice(), index)? {
        Ok(Lookup::Found)
    } else {
        Ok(Lookup::Missing)
    }
}

/// Looks up the entry that a row of a table wants in an index, where the index keeps the row, which a cell of the table is.
///
/// # Errors
///
/// Those of `has_wanted`, and of a cell that is no row of the table.
pub(crate) fn look_up<S: Source>(
    alloc: Global,
    pager: &mut Pager<S>,
    table: &Table,
    order: &RecordOrder,
    cell: &Cell<'_>,
    index: &TableIndex<'_>,
) -> Result<Lookup, Fault>
    requires { IsOrderOf table.now order.now }
    ensures found { WhereSteady pager.old.state (λ pages. (keyed : KeyedRow) (values : Place → List Datum) (levels : ℕ)
        → IsKeyedRow table.now.key pages table.now (cell_data cell.now) keyed
        → IsSearchableIndex pages index.now.descends.now values levels index.now.root
        → MatchResult result (λ found. Tells found (keeps_row (condition_of index.now) keyed.row)
        (Contains (map values (places_under pages Index levels index.now.root)) (entry_of (indexed_by index.now) keyed))) IsReadFault) }
    ensures only { IfErr result IsWalkFault }
    ensures reads { ReadsPages result pager.old.state pager.new.state }
{
    match table.key() {
        RowKey::Rowid(_) => look_up_row(alloc, pager, table, cell, index),
        RowKey::Primary(_) => look_up_primary(alloc, pager, table, order, cell, index),
    }
}
