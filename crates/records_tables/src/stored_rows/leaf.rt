//! A leaf of a table's tree, each cell of which is read once.
ghost use Rattle.std.specs.Prelude.{◌≡◌, ◌≢◌, ◌<◌, List, IfSome, IsTrue, Some};
ghost use Rattle.values.specs.Datum.{Datum};
ghost use Rattle.btree.specs.declared.image.kind.TreeKind.TheVariants as kind;
ghost use Rattle.btree.specs.declared.image.kind.Level.TheVariants.{Leaf};
ghost use Rattle.btree.specs.image.Layout.{cell_count};
ghost use Rattle.btree.specs.image.Pages.{Pages};
ghost use Rattle.btree.specs.Views.{cell_data};
ghost use Rattle.records_tables.specs.stored_rows.Keys.{HasCells, HasKeyAt, IsHead, KeysFit};
ghost use Rattle.records_tables.specs.stored_rows.RowFaults.{AreRowsIn};
ghost use Rattle.records_tables.specs.stored_rows.Stored.{Fits, IsRowOf};

use crate::stored_rows::keys::is_within;
use crate::stored_rows::rows::is_row;
use btree::{Cell, Level, PageView};
use schema_tables::Table;

/// The rowid of a cell that is a row of a table, whose values are of its columns, and that has the whole of its payload.
/// `None` says nothing of the cell.
fn row_key(table: &Table, cell: &Cell<'_>) -> Option<i64>
    ensures key { IfSome result (λ key. cell.now.rowid ≡ Some key) }
    ensures row { IfSome result (λ key. (pages : Pages) → (row : List Datum) × IsRowOf pages table.now (cell_data cell.now) row × Fits table.now row) }
{
    if cell.payload.overflow.is_some() {
        return None;
    }
    if !is_row(table, cell.rowid, cell.payload.local) {
        return None;
    }
    cell.rowid
}

/// Whether the cells of a leaf are rows of a table, each with the whole of its payload, and their keys ascend within the
/// bounds. `false` says nothing of them.
fn are_rows(
    view: &PageView<'_>,
    most: u64,
    table: &Table,
    low: Option<i64>,
    high: Option<i64>,
) -> bool
    requires kind { view.now.kind ≡ kind.Table }
    requires level { view.now.level ≡ Leaf }
    ensures cells { IsTrue result → HasCells view.now.at most view.now.page Leaf }
    ensures fit { IsTrue result → KeysFit (HasKeyAt view.now.at most view.now.page Leaf) (cell_count view.now.at view.now.page) low high }
    ensures rows { IsTrue result → (pages : Pages) → AreRowsIn pages table.now view.now.at most view.now.page }
{
    let mut last = low;
    for i in 0..u32::from(view.count()) {
        let Some(cell) = view.row(most, i) else {
            return false;
        };
        let Some(key) = row_key(table, &cell) else {
            return false;
        };
        if !is_within(last, high, key) {
            return false;
        }
        last = Some(key);
    }
    true
}

/// Whether page `n` has a cell, or is the root of a table's tree, which needs none.
fn is_filled(view: &PageView<'_>, table: &Table, n: u32) -> bool
    ensures { IsTrue result → n ≢ table.now.root → 0 < cell_count view.now.at view.now.page }
{
    n == table.root() || view.count() > 0
}

/// Whether page `n` is a leaf of a table's tree whose cells, in one walk, are rows of the table with ascending keys above
/// `low` and at most `high`, each with its whole payload in its cell. `false` says nothing of it.
pub fn is_leaf_of_rows(
    view: &PageView<'_>,
    most: u64,
    table: &Table,
    n: u32,
    low: Option<i64>,
    high: Option<i64>,
) -> bool
    requires { view.now.kind ≡ kind.Table }
    ensures leaf { IsTrue result → view.now.level ≡ Leaf }
    ensures head { IsTrue result → IsHead view.now.at most view.now.page Leaf table.now.root n low high }
    ensures rows { IsTrue result → (pages : Pages) → AreRowsIn pages table.now view.now.at most view.now.page }
{
    if view.level() != Level::Leaf {
        return false;
    }
    if !is_filled(view, table, n) {
        return false;
    }
    are_rows(view, most, table, low, high)
}
