//! An entry of a page of an index.
ghost use Rattle.std.specs.Prelude.{◌≡◌, IfErr, MatchResult};
ghost use Rattle.values.specs.Row.{Row};
ghost use Rattle.pager.specs.Calls.{IsReadFault, ReadsChainPages};
ghost use Rattle.btree.specs.declared.image.kind.TreeKind.TheVariants.{Index};
ghost use Rattle.btree.specs.image.Pages.{WhereSteady};
ghost use Rattle.btree.specs.image.Shape.{own_places, place_at, places_in};
ghost use Rattle.btree.specs.image.Tree.{Place};
ghost use Rattle.btree.specs.ViewData.{TellsOfCell};
ghost use Rattle.btree_cursor.specs.index_entries.Entries.{AreValuesOf, IsViewIn};
ghost use Rattle.integrity_trees.specs.index_walk.Checked.{IsIndexWalkFault};
ghost use Rattle.integrity_indexes.specs.index_batches.Placed.{TellsPlaced};
ghost use Rattle.integrity_indexes.specs.index_batches.Trees.{TellsAll};

use crate::index_batches::fields::is_placed;
use crate::index_batches::sought::SoughtBatch;
use btree::{PageView, payload};
use pager::{Pager, Source};
use std::alloc::Global;
use values::Fault;

/// Whether entry i of page `n` of an index, which was read as this view, is placed in a batch.
fn is_entry_placed<S: Source>(
    alloc: Global,
    pager: &mut Pager<S>,
    sought: &SoughtBatch<'_>,
    view: &PageView<'_>,
    n: u32,
    i: u32,
    code: &mut Vec<u8>,
) -> Result<bool, Fault>
    requires { TellsOfCell view.now Index view.now.level i }
    ensures placed { WhereSteady pager.old.state (λ pages. (values : Place → Row) → IsViewIn pages n view.now
        → AreValuesOf pages values view.now.level n → MatchResult result (λ placed.
        TellsPlaced sought.now.batch.now sought.now.above sought.now.most sought.now.columns placed (values (place_at n i))) IsReadFault) }
    ensures only { IfErr result IsIndexWalkFault }
    ensures reads { ReadsChainPages result pager.old.state pager.new.state }
{
    let most = pager.header().image_size();
    let Some(cell) = view.entry(most, i) else {
        return Err(Fault::BadPage(n));
    };
    let Some(bytes) = payload(alloc, pager, &cell)? else {
        return Err(Fault::BadChain(n));
    };
    Ok(is_placed(sought, bytes.as_slice(), code)?)
}

/// Whether the entries of page `n` of an index, a leaf, which was read as this view, are placed in a batch.
pub(crate) fn is_leaf_placed<S: Source>(
    alloc: Global,
    pager: &mut Pager<S>,
    sought: &SoughtBatch<'_>,
    view: &PageView<'_>,
    n: u32,
    code: &mut Vec<u8>,
) -> Result<bool, Fault>
    requires { view.now.kind ≡ Index }
    ensures placed { WhereSteady pager.old.state (λ pages. (values : Place → Row) → IsViewIn pages n view.now
        → AreValuesOf pages values view.now.level n → MatchResult result
        (TellsAll sought.now.batch.now sought.now.above sought.now.most sought.now.columns values (places_in pages n)) IsReadFault) }
    ensures only { IfErr result IsIndexWalkFault }
    ensures reads { ReadsChainPages result pager.old.state pager.new.state }
{
    for i in 0..u32::from(view.count()) {
        if !is_entry_placed(alloc, pager, sought, view, n, i, code)? {
            return Ok(false);
        }
    }
    Ok(true)
}

/// Whether the entry that stands behind child i of page `n` of an index is placed in a batch; there is none behind the last child.
pub(crate) fn is_own_placed<S: Source>(
    alloc: Global,
    pager: &mut Pager<S>,
    sought: &SoughtBatch<'_>,
    view: &PageView<'_>,
    n: u32,
    i: u32,
    code: &mut Vec<u8>,
) -> Result<bool, Fault>
    requires { view.now.kind ≡ Index }
    ensures placed { WhereSteady pager.old.state (λ pages. (values : Place → Row) → IsViewIn pages n view.now
        → AreValuesOf pages values view.now.level n → MatchResult result
        (TellsAll sought.now.batch.now sought.now.above sought.now.most sought.now.columns values (own_places pages n i)) IsReadFault) }
    ensures only { IfErr result IsIndexWalkFault }
    ensures reads { ReadsChainPages result pager.old.state pager.new.state }
{
    if i >= u32::from(view.count()) {
        return Ok(true);
    }
    is_entry_placed(alloc, pager, sought, view, n, i, code)
}
