//! Where in a page of an index the entries that are sought begin.
ghost use Rattle.std.specs.Prelude.{◌≡◌, ◌⊎◌, ◌<◌, ◌≤◌, ℕ, IfErr, IfOk, List, MatchResult, None};
ghost use Rattle.values.specs.Datum.{Datum};
ghost use Rattle.pager.specs.Calls.{IsReadFault, ReadsChainPages};
ghost use Rattle.pager.specs.PagerState.{image_size};
ghost use Rattle.btree.specs.declared.image.kind.TreeKind.{TreeKind};
ghost use Rattle.btree.specs.declared.image.kind.TreeKind.TheVariants.{Index};
ghost use Rattle.btree.specs.image.Cell.{CellData};
ghost use Rattle.btree.specs.image.Entries.{IsAtPlace};
ghost use Rattle.btree.specs.image.Layout.{cell_count};
ghost use Rattle.btree.specs.image.Pages.{WhereSteady};
ghost use Rattle.btree.specs.image.Search.{IsBoundary};
ghost use Rattle.btree.specs.image.Tree.{Place};
ghost use Rattle.btree.specs.Bytes.{IsEntryCell};
ghost use Rattle.btree_cursor.specs.index_entries.Entries.{AreValuesOf, BreaksEntry, IsCompareFault, IsViewIn};
ghost use Rattle.btree_cursor.specs.index_entries.Sought.{comes_before};

use crate::index_entries::columns::IndexKey;
use crate::index_entries::entries::entry_comes_before;
use btree::PageView;
use pager::{Pager, Source};
use std::alloc::Global;
use values::Fault;

/// How many entries of page `n` of an index, which was read as this view, come before what is sought, as the two beside the
/// boundary tell, where entries ascend. Of m entries no more than log m + 1 are looked at. Its faults are those of reading, and
/// `BadPage`, `BadChain`, `BadRecord`, `FloatValue` and `BadText` of an entry that can't be read.
pub fn entry_boundary<S: Source>(
    alloc: Global,
    pager: &mut Pager<S>,
    view: &PageView<'_>,
    n: u32,
    key: &IndexKey<'_>,
) -> Result<u16, Fault>
    requires { view.now.kind ≡ TreeKind.Index }
    ensures found { WhereSteady pager.old.state (λ pages. (values : Place → List Datum) → IsViewIn pages n view.now
        → AreValuesOf pages values view.now.level n → MatchResult result
        (IsBoundary IsAtPlace (λ place. comes_before key.now (values place)) pages Index view.now.level n) IsReadFault) }
    ensures within { IfOk result (λ p. p ≤ cell_count view.now.at view.now.page) }
    ensures broken { WhereSteady pager.old.state (λ pages. IsViewIn pages n view.now
        → IfErr result (λ e. IsReadFault e ⊎ BreaksEntry pages view.now.level n e)) }
    ensures only { IfErr result (IsCompareFault n) }
    ensures local { ((i : ℕ) (cell : CellData) → i < cell_count view.now.at view.now.page
        → IsEntryCell view.now.at (image_size pager.old.state.header) view.now.level view.now.page i cell
        → cell.payload.overflow ≡ None) → pager.new.state ≡ pager.old.state }
    ensures reads { ReadsChainPages result pager.old.state pager.new.state }
{
    let mut low: u16 = 0;
    let mut high = view.count();
    while low < high {
        let middle = low + (high - low) / 2;
        if entry_comes_before(alloc, pager, view, n, middle as u32, key)? {
            low = middle + 1;
        } else {
            high = middle;
        }
    }
    Ok(low)
}
