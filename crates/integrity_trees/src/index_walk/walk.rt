//! A walk over the tree of an index, from its root down.
ghost use Rattle.std.specs.Prelude.{◌≡◌, ◌+◌, ◌<◌, ◌≤◌, IfErr, IfOk, MatchResult, OnOk, length};
ghost use Rattle.pager.specs.Calls.{ReadsPages};
ghost use Rattle.pager.specs.PagerState.{IsPageNumber};
ghost use Rattle.btree.specs.declared.image.kind.TreeKind.TheVariants.{Index};
ghost use Rattle.btree.specs.image.Pages.{WhereSteady};
ghost use Rattle.btree.specs.image.Shape.{most_levels};
ghost use Rattle.values.specs.Bounds.{counted};
ghost use Rattle.btree.specs.image.Tree.{StandsAt};
ghost use Rattle.integrity_trees.specs.tree_walk.Used.{MarksTree};
ghost use Rattle.integrity_trees.specs.index_walk.Checked.{HasCheckedIndex, IsIndexFailure, IsIndexWalkFault, index_tree};
ghost use Rattle.integrity_trees.specs.entry_prefixes.Prefixes.{HasPrefixes};
ghost use Rattle.integrity_trees.specs.index_walk.Last.{IsFrom};
ghost use Rattle.integrity_trees.specs.index_walk.Walked.{IsWalkCause, IsWalked};

use crate::entry_prefixes::Prefixes;
use crate::index_walk::entries::{check_leaf, check_own};
use crate::index_walk::last::LastEntry;
use crate::index_walk::page::{index_page, is_leaf};
use crate::index_walk::tree::IndexTree;
use crate::tree_walk::{TreeCounts, child_within, counts_of_page, is_uneven, join};
use btree::{MOST_LEVELS, use_page};
use pager::{Pager, Source};
use std::alloc::Global;
use values::Fault;

/// What is under a child, and so many entries behind it.
fn with_own(below: TreeCounts, own: u64) -> TreeCounts
    ensures { result ≡ record { levels = below.levels; cells = counted (below.cells + own); pages = below.pages } }
{
    TreeCounts {
        levels: below.levels,
        cells: below.cells.saturating_add(own),
        pages: below.pages,
    }
}

/// Walks from page `n` down, which stands at this depth. Each page gets its mark before it is read, so that none is read
/// twice, and an entry of an interior page is read between its left child and the next.
fn walk<S: Source>(
    alloc: Global,
    pager: &mut Pager<S>,
    tree: &IndexTree<'_>,
    n: u32,
    depth: u32,
    last: &mut LastEntry,
    used: &mut [bool],
) -> Result<TreeCounts, Fault>
    requires number { IsPageNumber pager.old.state n }
    requires long { pager.old.state.header.pages < length used.old }
    requires stands { WhereSteady pager.old.state (λ pages. StandsAt pages Index tree.now.root depth n) }
    requires from { WhereSteady pager.old.state (λ pages. IsFrom pages tree.now.widths tree.now.root last.old n) }
    ensures deep { IfOk result (λ counts. counts.levels + depth ≤ most_levels) }
    ensures walked { WhereSteady pager.old.state (λ pages. IfOk result (λ counts.
        IsWalked pages tree.now.widths tree.now.descends.now tree.now.root n counts used.old used.new last.old last.new)) }
    ensures fault { WhereSteady pager.old.state (λ pages. IfErr result
        (IsWalkCause pages tree.now.widths tree.now.descends.now tree.now.root n used.old)) }
    ensures only { IfErr result IsIndexWalkFault }
    ensures reads { ReadsPages result pager.old.state pager.new.state }
{
    use_page(used, n)?;
    if depth > MOST_LEVELS {
        return Err(Fault::BadDepth(tree.root));
    }
    let header = pager.header();
    let page = pager.page(n)?;
    let view = index_page(&page, &header, tree.root, n)?;
    if is_leaf(&view) {
        check_leaf(alloc, pager, tree, &view, n, last, used)?;
        return Ok(counts_of_page(u64::from(view.count())));
    }
    let mut counts = counts_of_page(0);
    for i in 0..u32::from(view.count()) + 1 {
        let Some(child) = child_within(&view, i, header.pages) else {
            return Err(Fault::BadPage(n));
        };
        let below = walk(alloc, pager, tree, child, depth + 1, last, used)?;
        if is_uneven(i, counts.levels, below.levels) {
            return Err(Fault::BadDepth(tree.root));
        }
        let own = check_own(alloc, pager, tree, &view, n, i, last, used)?;
        counts = join(counts, with_own(below, own));
    }
    Ok(TreeCounts {
        levels: counts.levels + 1,
        ..counts
    })
}

/// Checks the tree of an index, whose entries have as many values as they may have and ascend by their keys, counts what it has, and
/// what its entries show of so many first columns, and gives its pages and their chains their marks. Each entry is held against
/// the one before it alone: entries that agree in their first values stand together. (Database File Format, section 1.6 "B-tree
/// Pages", and section 2.3 "Representation Of SQL Indices"; CREATE INDEX, "Unique Indexes")
///
/// # Errors
///
/// `ReadFailed` and `NoMemory`; `BadPage`, `BadOrder`, `BadDepth`, `BadChain`, `BadRecord`, `FloatValue` and `BadText` where
/// the tree or one of its entries has that condition; `PageUse` of a page that has its mark.
pub fn check_counted<S: Source>(
    alloc: Global,
    pager: &mut Pager<S>,
    tree: &IndexTree<'_>,
    width: usize,
    used: &mut [bool],
) -> Result<(TreeCounts, Prefixes), Fault>
    requires number { IsPageNumber pager.old.state tree.now.root }
    requires long { pager.old.state.header.pages < length used.old }
    ensures outcome { MatchResult result
        (λ counted. HasCheckedIndex pager.old.state tree.now.widths tree.now.descends.now tree.now.root counted.0)
        (IsIndexFailure pager.old.state tree.now.widths tree.now.descends.now tree.now.root used.old) }
    ensures prefixes { WhereSteady pager.old.state (λ pages. width ≤ tree.now.widths.key
        → IfOk result (λ counted. HasPrefixes pages tree.now.root width counted.1)) }
    ensures marks { WhereSteady pager.old.state (λ pages. OnOk result
        (MarksTree pages (index_tree tree.now.root) used.old used.new)) }
    ensures reads { ReadsPages result pager.old.state pager.new.state }
{
    let mut last = LastEntry::new(alloc, width)?;
    let counts = walk(alloc, pager, tree, tree.root, 1, &mut last, used)?;
    Ok((counts, last.into_prefixes()))
}

/// The same, of which no columns are counted.
///
/// # Errors
///
/// Those of `check_counted`.
pub fn check_index<S: Source>(
    alloc: Global,
    pager: &mut Pager<S>,
    tree: &IndexTree<'_>,
    used: &mut [bool],
) -> Result<TreeCounts, Fault>
    requires number { IsPageNumber pager.old.state tree.now.root }
    requires long { pager.old.state.header.pages < length used.old }
    ensures outcome { MatchResult result
        (HasCheckedIndex pager.old.state tree.now.widths tree.now.descends.now tree.now.root)
        (IsIndexFailure pager.old.state tree.now.widths tree.now.descends.now tree.now.root used.old) }
    ensures marks { WhereSteady pager.old.state (λ pages. OnOk result
        (MarksTree pages (index_tree tree.now.root) used.old used.new)) }
    ensures reads { ReadsPages result pager.old.state pager.new.state }
{
    let (counts, _) = check_counted(alloc, pager, tree, 0, used)?;
    Ok(counts)
}
