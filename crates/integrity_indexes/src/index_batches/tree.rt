//! All entries of an index, from its root down.
ghost use Rattle.std.specs.Prelude.{◌≡◌, ◌<◌, ℕ, IfErr, IsFalse, IsTrue, MatchResult};
ghost use Rattle.values.specs.Row.{Row};
ghost use Rattle.pager.specs.Calls.{IsReadFault, ReadsPages};
ghost use Rattle.pager.specs.PagerState.{IsPageNumber};
ghost use Rattle.btree.specs.declared.image.kind.TreeKind.TheVariants.{Index};
ghost use Rattle.btree.specs.declared.image.kind.Level.TheVariants.{Leaf, Interior};
ghost use Rattle.btree.specs.image.Pages.{WhereSteady};
ghost use Rattle.btree.specs.image.Shape.{IsTreeAt, places_under};
ghost use Rattle.btree.specs.image.Tree.{Place};
ghost use Rattle.integrity_trees.specs.index_walk.Checked.{IsIndexWalkFault};
ghost use Rattle.integrity_indexes.specs.index_batches.Trees.{AreTreeValues, IsTreePage, TellsAll};

use crate::index_batches::entries::{is_leaf_placed, is_own_placed};
use crate::index_batches::sought::SoughtBatch;
use btree::{Level, MOST_LEVELS, PageView, TreeKind, view_in};
use integrity_trees::child_within;
use pager::{Pager, Source};
use std::alloc::Global;
use values::Fault;

/// Whether a page has no children.
fn is_leaf(view: &PageView<'_>) -> bool
    ensures leaf { IsTrue result → view.now.level ≡ Leaf }
    ensures interior { IsFalse result → view.now.level ≡ Interior }
{
    view.level() == Level::Leaf
}

/// Whether the entries under page `n`, which may have fewer than so many levels below it, are placed in a batch.
fn is_placed_under<S: Source>(
    alloc: Global,
    pager: &mut Pager<S>,
    sought: &SoughtBatch<'_>,
    n: u32,
    levels: u32,
    code: &mut Vec<u8>,
) -> Result<bool, Fault>
    requires { IsPageNumber pager.old.state n }
    ensures placed { WhereSteady pager.old.state (λ pages. (values : Place → Row) (root height : ℕ) → IsTreePage pages values root height n
        → height < levels → MatchResult result
        (TellsAll sought.now.batch.now sought.now.above sought.now.most sought.now.columns values (places_under pages Index height n)) IsReadFault) }
    ensures only { IfErr result IsIndexWalkFault }
    ensures reads { ReadsPages result pager.old.state pager.new.state }
{
    if levels == 0 {
        return Err(Fault::BadDepth(n));
    }
    let header = pager.header();
    let page = pager.page(n)?;
    let Some(view) = view_in(TreeKind::Index, &page, n, header.usable as usize) else {
        return Err(Fault::BadPage(n));
    };
    if is_leaf(&view) {
        return is_leaf_placed(alloc, pager, sought, &view, n, code);
    }
    for i in 0..u32::from(view.count()) + 1 {
        let Some(child) = child_within(&view, i, header.pages) else {
            return Err(Fault::BadPage(n));
        };
        if !is_placed_under(alloc, pager, sought, child, levels - 1, code)? {
            return Ok(false);
        }
        if !is_own_placed(alloc, pager, sought, &view, n, i, code)? {
            return Ok(false);
        }
    }
    Ok(true)
}

/// Whether each entry of the index that has this root ends with a rowid behind the values of its columns and, where this is
/// one of those that a batch is for, is in the batch. (Database File Format, section 2.3 "Representation Of SQL Indices")
///
/// # Errors
///
/// `ReadFailed` and `NoMemory`; others only where the pages are no tree of an index.
pub fn are_in_batch<S: Source>(
    alloc: Global,
    pager: &mut Pager<S>,
    root: u32,
    sought: &SoughtBatch<'_>,
    code: &mut Vec<u8>,
) -> Result<bool, Fault>
    ensures placed { WhereSteady pager.old.state (λ pages. (values : Place → Row) (levels : ℕ) → IsTreeAt pages Index levels root
        → AreTreeValues pages values root → MatchResult result
        (TellsAll sought.now.batch.now sought.now.above sought.now.most sought.now.columns values (places_under pages Index levels root)) IsReadFault) }
    ensures only { IfErr result IsIndexWalkFault }
    ensures reads { ReadsPages result pager.old.state pager.new.state }
{
    if root < 1 || root > pager.header().pages {
        return Err(Fault::BadPage(root));
    }
    is_placed_under(alloc, pager, sought, root, MOST_LEVELS, code)
}
