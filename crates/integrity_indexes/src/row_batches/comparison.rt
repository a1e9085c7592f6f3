//! Whether an index has the entries that its table's rows require.
ghost use Rattle.std.specs.Prelude.{◌≡◌, ◌↔◌, ℕ, IfErr, IsTrue, List, MatchResult, Option, length};
ghost use Rattle.pager.specs.Calls.{IsReadFault, ReadsPages};
ghost use Rattle.btree.specs.declared.image.kind.TreeKind.TheVariants as kind;
ghost use Rattle.btree.specs.image.Pages.{IsNumber, WhereSteady, pages_seen};
ghost use Rattle.values.specs.Bounds.{counted};
ghost use Rattle.btree.specs.image.Tree.{ArePlacesOf, Place};
ghost use Rattle.schema_tables.specs.TableData.{IsKeyWithin, RowKeyData};
ghost use Rattle.integrity_trees.specs.table_walk.Walked.{IsWalkFault};
ghost use Rattle.integrity_indexes.specs.index_rows.Checked.{IsCheckedTable, IsCheckedTableIndex};
ghost use Rattle.integrity_indexes.specs.index_rows.Compared.{IsDifferentIndex, IsIndexOf};
ghost use Rattle.integrity_indexes.specs.index_rows.Entries.{indexed_by};
ghost use Rattle.integrity_indexes.specs.index_rows.Kept.{condition_of};

use crate::index_rows::TableIndex;
use crate::row_batches::runs::{add_row, are_placed, new_run, turn};
use btree::TreeKind;
use btree_cursor::Cursor;
use pager::{Pager, Source};
use schema_tables::{RowKey, Table};
use std::alloc::Global;
use values::Fault;

/// Whether so many rows are as many as the entries of an index, by their counts, which stay at the greatest number.
fn are_as_many<S: Source>(pager: &Pager<S>, rows: u64, entries: u64) -> bool
    ensures { (root many : ℕ) (places : List Place) → IsNumber (pages_seen pager.now.state) root
        → ArePlacesOf (pages_seen pager.now.state) kind.Index root places → rows ≡ counted many → entries ≡ counted (length places)
        → IsTrue result ↔ (many ≡ length places) }
{
    // A page has fewer than 65,536 cells, so that no count of an image's cells stays there.
    let most = u64::from(pager.header().pages) * 65_536;
    rows == entries && rows <= most
}

/// The same as `is_index_of` of a table with rowids, a batch of rows at a time.
fn is_index_by_batches<S: Source>(
    alloc: Global,
    pager: &mut Pager<S>,
    table: &Table,
    index: &TableIndex<'_>,
    entries: u64,
) -> Result<bool, Fault>
    requires { IsKeyWithin table.now.key (length table.now.columns) }
    ensures same { WhereSteady pager.old.state (λ pages. (place : Option ℕ) → table.now.key ≡ RowKeyData.Rowid place
        → IsCheckedTable pages table.now → IsCheckedTableIndex pages table.now index.now entries
        → MatchResult result (λ same. (IsTrue same → IsIndexOf pages table.now (indexed_by index.now) (condition_of index.now) index.now.root)
        × (¬ IsTrue same → IsDifferentIndex pages table.now (indexed_by index.now) (condition_of index.now) index.now.root)) IsReadFault) }
    ensures only { IfErr result IsWalkFault }
    ensures reads { ReadsPages result pager.old.state pager.new.state }
{
    let root = table.root();
    let mut run = new_run(alloc)?;
    let mut code = Vec::new(alloc);
    let mut cursor = Cursor::first(alloc, pager, TreeKind::Table, root)?;
    let mut kept: u64 = 0;
    loop {
        // A cell that was checked is there again, unless the source has changed.
        let Ok(entry) = cursor.entry() else {
            return Err(Fault::BadPage(root));
        };
        let Some(cell) = entry else {
            if !are_placed(alloc, pager, index, &run, None, &mut code)? {
                return Ok(false);
            }
            return Ok(are_as_many(pager, kept, entries));
        };
        let added = add_row(alloc, pager, table, &cell, index, &mut run, &mut code)?;
        kept = kept.saturating_add(added);
        cursor.next(pager)?;
        if !turn(alloc, pager, index, &mut run, &mut code)? {
            return Ok(false);
        }
    }
}

/// Whether an index has exactly the entries that those rows of its table want which its condition keeps, where the trees of
/// both were checked and the index has so many entries. Of a table with rowids the index is read once for each batch of some
/// megabytes of wanted entries; of one without each wanted entry is looked up, since its key is no number. (Database File
/// Format, section 2.3 "Representation Of SQL Indices", and section 2.4 "Representation Of WITHOUT ROWID Tables"; Partial
/// Indexes)
///
/// # Errors
///
/// `ReadFailed` and `NoMemory`; others only where the source has changed since the check.
pub fn is_index_of<S: Source>(
    alloc: Global,
    pager: &mut Pager<S>,
    table: &Table,
    index: &TableIndex<'_>,
    entries: u64,
) -> Result<bool, Fault>
    ensures same { WhereSteady pager.old.state (λ pages. IsCheckedTable pages table.now → IsCheckedTableIndex pages table.now index.now entries
        → MatchResult result (λ same. (IsTrue same → IsIndexOf pages table.now (indexed_by index.now) (condition_of index.now) index.now.root)
        × (¬ IsTrue same → IsDifferentIndex pages table.now (indexed_by index.now) (condition_of index.now) index.now.root)) IsReadFault) }
    ensures only { IfErr result IsWalkFault }
    ensures reads { ReadsPages result pager.old.state pager.new.state }
{
    match table.key() {
        RowKey::Rowid(_) => is_index_by_batches(alloc, pager, table, index, entries),
        RowKey::Primary(_) => crate::index_rows::is_index_of(alloc, pager, table, index, entries),
    }
}
