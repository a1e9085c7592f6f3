//! The rows of a table whose tree was checked.
ghost use Rattle.std.specs.Prelude.{◌≡◌, ◌⊎◌, IfErr, IfOk, MatchResult};
ghost use Rattle.pager.specs.Calls.{IsReadFault, ReadsChainPages, ReadsPages};
ghost use Rattle.pager.specs.PagerState.{IsPageNumber};
ghost use Rattle.btree.specs.image.Pages.{WhereSteady};
ghost use Rattle.btree.specs.Views.{cell_data};
ghost use Rattle.records_tables.specs.stored_rows.RowFaults.{IsCellFault, IsRowFault};
ghost use Rattle.records_tables.specs.stored_rows.Stored.{IsRowOf};
ghost use Rattle.integrity_trees.specs.table_walk.Checked.{IsStoredTable};
ghost use Rattle.integrity_trees.specs.table_walk.Walked.{IsWalkFault};

use btree::{Cell, TreeKind};
use btree_cursor::Cursor;
use pager::{Pager, Source};
use records_tables::{payload_of, read_row};
use schema_tables::Table;
use std::alloc::Global;
use values::{Fault, Row};

/// The row of a table that a cell of page `n` is, with its values in memory of their own.
fn row_in<S: Source>(
    alloc: Global,
    pager: &mut Pager<S>,
    table: &Table,
    cell: &Cell<'_>,
    n: u32,
) -> Result<Row, Fault>
    ensures row { WhereSteady pager.old.state (λ pages. IfOk result (λ row. IsRowOf pages table.now (cell_data cell.now) row)) }
    ensures fault { WhereSteady pager.old.state (λ pages. IfErr result (λ e. IsReadFault e
        ⊎ IsCellFault pages table.now n (cell_data cell.now) e)) }
    ensures only { IfErr result IsRowFault }
    ensures reads { ReadsChainPages result pager.old.state pager.new.state }
{
    let bytes = payload_of(alloc, pager, cell, n)?;
    let view = read_row(alloc, table, cell.rowid, bytes.as_slice(), n)?;
    let row = view.to_row(alloc)?;
    Ok(row)
}

/// The rows of a table whose tree was checked, in the order of its tree. Its faults are `ReadFailed` and `NoMemory`, and where
/// the source has changed since, those of `check_table`.
pub fn all_rows<S: Source>(
    alloc: Global,
    pager: &mut Pager<S>,
    table: &Table,
) -> Result<Vec<Row>, Fault>
    requires { IsPageNumber pager.old.state table.now.root }
    ensures rows { WhereSteady pager.old.state (λ pages. (stored : IsStoredTable pages table.now)
        → MatchResult result (λ rows. rows.items ≡ stored.rows) IsReadFault) }
    ensures only { IfErr result IsWalkFault }
    ensures reads { ReadsPages result pager.old.state pager.new.state }
{
    let root = table.root();
    let mut cursor = Cursor::first(alloc, pager, TreeKind::Table, root)?;
    let mut rows = Vec::new(alloc);
    loop {
        // A cell that was checked is there again, unless the source has changed.
        let Ok(entry) = cursor.entry() else {
            return Err(Fault::BadPage(root));
        };
        let Some(cell) = entry else {
            return Ok(rows);
        };
        let row = row_in(alloc, pager, table, &cell, root)?;
        rows.push(row)?;
        cursor.next(pager)?;
    }
}
