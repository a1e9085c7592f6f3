//! The batch of a run of rows, and the index compared with it.
ghost use Rattle.std.specs.Prelude.{◌≡◌, ℕ, ℤ, IfErr, IfOk, MatchResult, None, Some, [], length};
ghost use Rattle.values.specs.Row.{Row};
ghost use Rattle.pager.specs.Calls.{IsReadFault, ReadsPages};
ghost use Rattle.btree.specs.declared.image.kind.TreeKind.TheVariants.{Index};
ghost use Rattle.btree.specs.image.Pages.{WhereSteady};
ghost use Rattle.btree.specs.image.Shape.{IsTreeAt, places_under};
ghost use Rattle.btree.specs.image.Tree.{Place};
ghost use Rattle.btree.specs.Views.{cell_data};
ghost use Rattle.integrity_indexes.specs.entry_batches.Batches.{ComeBefore};
ghost use Rattle.integrity_indexes.specs.index_batches.Trees.{AreTreeValues, TellsAll};
ghost use Rattle.records_tables.specs.stored_rows.Stored.{IsRowOf};
ghost use Rattle.integrity_trees.specs.table_walk.Walked.{IsWalkFault};
ghost use Rattle.integrity_indexes.specs.index_rows.Kept.{condition_of};
ghost use Rattle.integrity_indexes.specs.row_batches.Runs.{IsAdded, TellsTurn};

use crate::entry_batches::Batch;
use crate::index_batches::{SoughtBatch, are_in_batch};
use crate::index_rows::TableIndex;
use crate::row_batches::wanted::{is_row_kept, write_code};
use btree::Cell;
use pager::{Pager, Source};
use records_tables::payload_of;
use schema_tables::Table;
use std::alloc::{AllocError, Global};
use values::Fault;

/// How many bytes a batch may have before the index is held against it: an entry's slot and its code are counted.
const MOST_BYTES: usize = 25 << 19;

/// How many bytes the slot of an entry has.
const SLOT_BYTES: usize = 16;

/// The entries that a run of rows wants, whose rowids ascend.
#[derive(Drop)]
pub struct Run {
    pub(crate) batch: Batch,
    /// The last rowid before the run, if there is one.
    pub(crate) above: Option<i64>,
    /// The last rowid so far, if there is one.
    pub(crate) last: Option<i64>,
}

/// A run of no rows, before the first.
pub(crate) fn new_run(alloc: Global) -> Result<Run, AllocError>
    ensures { IfOk result (λ run. (run.batch ≡ []) × (run.above ≡ None) × (run.last ≡ None)) }
{
    let batch = Batch::with_capacity(alloc, MOST_BYTES / SLOT_BYTES, MOST_BYTES)?;
    Ok(Run {
        batch,
        above: None,
        last: None,
    })
}

/// Whether a batch has so much that the index is to be held against it.
fn is_full(batch: &Batch) -> bool {
    let slots = batch.count().saturating_mul(SLOT_BYTES);
    slots.saturating_add(batch.code_bytes()) >= MOST_BYTES
}

/// Whether each entry of an index whose rowid is above those before a run, and at most so much, is in the run's batch.
pub(crate) fn are_placed<S: Source>(
    alloc: Global,
    pager: &mut Pager<S>,
    index: &TableIndex<'_>,
    run: &Run,
    most: Option<i64>,
    code: &mut Vec<u8>,
) -> Result<bool, Fault>
    ensures placed { WhereSteady pager.old.state (λ pages. (values : Place → Row) (levels : ℕ) → IsTreeAt pages Index levels index.now.root
        → AreTreeValues pages values index.now.root → MatchResult result
        (TellsAll run.now.batch run.now.above most (length index.now.places.now) values (places_under pages Index levels index.now.root)) IsReadFault) }
    ensures only { IfErr result IsWalkFault }
    ensures reads { ReadsPages result pager.old.state pager.new.state }
{
    let sought = SoughtBatch {
        columns: index.places.len(),
        batch: &run.batch,
        above: run.above,
        most,
    };
    are_in_batch(alloc, pager, index.root, &sought, code)
}

/// Holds an index against the batch of a run where that is full, and begins the next run; tells whether each entry is placed.
pub(crate) fn turn<S: Source>(
    alloc: Global,
    pager: &mut Pager<S>,
    index: &TableIndex<'_>,
    run: &mut Run,
    code: &mut Vec<u8>,
) -> Result<bool, Fault>
    ensures placed { WhereSteady pager.old.state (λ pages. (values : Place → Row) (levels : ℕ) → IsTreeAt pages Index levels index.now.root
        → AreTreeValues pages values index.now.root → MatchResult result
        (TellsTurn run.old run.new (length index.now.places.now) values (places_under pages Index levels index.now.root)) IsReadFault) }
    ensures only { IfErr result IsWalkFault }
    ensures reads { ReadsPages result pager.old.state pager.new.state }
{
    if !is_full(&run.batch) {
        return Ok(true);
    }
    let Some(last) = run.last else {
        return Ok(true);
    };
    if !are_placed(alloc, pager, index, run, Some(last), code)? {
        return Ok(false);
    }
    run.batch.clear();
    run.above = Some(last);
    Ok(true)
}

/// Puts the entry that a row wants, which a cell of a table with rowids is, into the batch of a run, where the index keeps the row;
/// tells how many entries that are.
pub(crate) fn add_row<S: Source>(
    alloc: Global,
    pager: &mut Pager<S>,
    table: &Table,
    cell: &Cell<'_>,
    index: &TableIndex<'_>,
    run: &mut Run,
    code: &mut Vec<u8>,
) -> Result<u64, Fault>
    ensures added { WhereSteady pager.old.state (λ pages. (row : Row) (rowid : ℤ) → IsRowOf pages table.now (cell_data cell.now) row
        → cell.now.rowid ≡ Some rowid → ComeBefore rowid run.old.batch → MatchResult result
        (IsAdded (condition_of index.now) index.now.places.now row rowid run.old run.new) IsReadFault) }
    ensures only { IfErr result IsWalkFault }
    ensures reads { ReadsPages result pager.old.state pager.new.state }
{
    let n = table.root();
    let Some(rowid) = cell.rowid else {
        return Err(Fault::BadPage(n));
    };
    let bytes = payload_of(alloc, pager, cell, n)?;
    run.last = Some(rowid);
    if !is_row_kept(
        alloc,
        table,
        cell.rowid,
        bytes.as_slice(),
        index.condition,
        n,
    )? {
        return Ok(0);
    }
    if !write_code(table, cell.rowid, bytes.as_slice(), index.places, code)? {
        return Err(Fault::BadRecord(n));
    }
    // Rowids ascend in a table that was checked, unless the source has changed.
    if !run.batch.add(rowid, code.as_slice())? {
        return Err(Fault::BadOrder(n));
    }
    Ok(1)
}
