//! The entries of the tree of a table without rowids, each as a row of the table.
ghost use Rattle.std.specs.Prelude.{◌≡◌, ◌⊎◌, All, IfErr, List, MatchResult, OnOk, Some};
ghost use Rattle.values.specs.Datum.{Datum};
ghost use Rattle.pager.specs.Calls.{IsReadFault, ReadsChainPages, ReadsPages};
ghost use Rattle.btree.specs.declared.image.kind.TreeKind.TheVariants.{Index};
ghost use Rattle.btree.specs.image.Pages.{IsNumber, WhereSteady};
ghost use Rattle.btree.specs.image.Shape.{places_under};
ghost use Rattle.btree.specs.Views.{cell_data};
ghost use Rattle.btree_cursor.specs.index_entries.Entries.{HasRecord};
ghost use Rattle.btree_cursor.specs.declared.cursor.cursor.Frame.{Frame};
ghost use Rattle.integrity_trees.specs.declared.tree_walk.counts.TreeCounts.{TreeCounts};
ghost use Rattle.records_tables.specs.primary_rows.Order.{IsOrderOf};
ghost use Rattle.records_tables.specs.primary_rows.Rows.{BreaksRow, IsPrimaryFault, IsStoredRow};
ghost use Rattle.integrity_trees.specs.primary_walk.Checked.{HasBrokenRow, HoldsPrimaryRow, IsKeyTree, IsPrimaryWalkFault};

use btree::{Cell, TreeKind, payload};
use btree_cursor::Cursor;
use pager::{Pager, Source};
use records_tables::{RecordOrder, check_primary_row};
use schema_tables::Table;
use std::alloc::Global;
use values::Fault;

/// Tests that an entry of page `n` is a row of a table, whose values are of its columns.
fn check_row<S: Source>(
    alloc: Global,
    pager: &mut Pager<S>,
    table: &Table,
    order: &RecordOrder,
    cell: &Cell<'_>,
    n: u32,
) -> Result<(), Fault>
    requires { IsOrderOf table.now order.now }
    ensures row { OnOk result ((values : List Datum) × IsStoredRow table.now values
        × WhereSteady pager.old.state (λ pages. HasRecord pages (cell_data cell.now) values)) }
    ensures fault { WhereSteady pager.old.state (λ pages. (values : List Datum) → HasRecord pages (cell_data cell.now) values
        → IfErr result (λ e. IsReadFault e ⊎ BreaksRow table.now values n e)) }
    ensures only { IfErr result (IsPrimaryFault n) }
    ensures reads { ReadsChainPages result pager.old.state pager.new.state }
{
    let Some(bytes) = payload(alloc, pager, cell)? else {
        return Err(Fault::BadChain(n));
    };
    check_primary_row(alloc, table, order, bytes.as_slice(), n)?;
    Ok(())
}

/// The page that a cursor stands on, or this one where it has ended.
fn page_at(cursor: &Cursor, root: u32) -> u32
    ensures { (here : Frame) → cursor.now.here ≡ Some here → result ≡ here.number }
{
    cursor.page().unwrap_or(root)
}

/// Tests that each entry of a tree that was checked as that of an index is a row of a table, whose values are of its columns.
pub(crate) fn check_rows<S: Source>(
    alloc: Global,
    pager: &mut Pager<S>,
    table: &Table,
    order: &RecordOrder,
) -> Result<(), Fault>
    requires { IsOrderOf table.now order.now }
    ensures rows { WhereSteady pager.old.state (λ pages. (counts : TreeCounts) → IsNumber pages table.now.root → IsKeyTree pages table.now counts
        → MatchResult result (λ nothing. All (HoldsPrimaryRow pages table.now) (places_under pages Index counts.levels table.now.root))
        (λ e. IsReadFault e ⊎ HasBrokenRow pages table.now e)) }
    ensures only { IfErr result IsPrimaryWalkFault }
    ensures reads { ReadsPages result pager.old.state pager.new.state }
{
    let root = table.root();
    let mut cursor = Cursor::first(alloc, pager, TreeKind::Index, root)?;
    loop {
        // An entry that was checked is there again, unless the source has changed.
        let Ok(entry) = cursor.entry() else {
            return Err(Fault::BadPage(root));
        };
        let Some(cell) = entry else {
            return Ok(());
        };
        let page = page_at(&cursor, root);
        check_row(alloc, pager, table, order, &cell, page)?;
        cursor.next(pager)?;
    }
}
