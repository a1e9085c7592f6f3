//! The check of the tree of a table without rowids.
ghost use Rattle.std.specs.Prelude.{◌<◌, MatchResult, OnOk, length};
ghost use Rattle.pager.specs.Calls.{ReadsPages};
ghost use Rattle.pager.specs.PagerState.{IsPageNumber};
ghost use Rattle.btree.specs.image.Pages.{WhereSteady};
ghost use Rattle.integrity_trees.specs.tree_walk.Used.{MarksTree};
ghost use Rattle.integrity_trees.specs.index_walk.Checked.{index_tree};
ghost use Rattle.integrity_trees.specs.primary_walk.Checked.{HasCheckedPrimary, IsPrimaryFailure};

use crate::index_walk::{EntryWidths, IndexTree, check_index};
use crate::primary_walk::rows::check_rows;
use crate::tree_walk::TreeCounts;
use pager::{Pager, Source};
use records_tables::RecordOrder;
use schema_tables::Table;
use std::alloc::Global;
use values::Fault;

/// Checks the tree of a table without rowids: an index of its rows, in the order of its key. Counts what it has, and gives its
/// pages and their chains their marks. (Database File Format, section 2.4 "Representation Of WITHOUT ROWID Tables")
///
/// # Errors
///
/// `ReadFailed` and `NoMemory`; `BadPage`, `BadOrder`, `BadDepth`, `BadChain`, `BadRecord`, `FloatValue`, `BadText` and
/// `ValueBreaksColumn` where the tree or one of its rows has that condition; `PageUse` of a page that has its mark.
pub fn check_primary<S: Source>(
    alloc: Global,
    pager: &mut Pager<S>,
    table: &Table,
    used: &mut [bool],
) -> Result<TreeCounts, Fault>
    requires number { IsPageNumber pager.old.state table.now.root }
    requires long { pager.old.state.header.pages < length used.old }
    ensures outcome { MatchResult result (HasCheckedPrimary pager.old.state table.now) (IsPrimaryFailure pager.old.state table.now used.old) }
    ensures marks { WhereSteady pager.old.state (λ pages. OnOk result (MarksTree pages (index_tree table.now.root) used.old used.new)) }
    ensures reads { ReadsPages result pager.old.state pager.new.state }
{
    let order = RecordOrder::of(alloc, table)?;
    let tree = IndexTree {
        root: table.root(),
        widths: EntryWidths {
            key: order.key,
            most: order.most,
        },
        descends: &[],
    };
    let counts = check_index(alloc, pager, &tree, used)?;
    check_rows(alloc, pager, table, &order)?;
    Ok(counts)
}
