//! A page of the tree of an index, all of whose entries are there.
ghost use Rattle.std.specs.Prelude.{◌≡◌, ◌≢◌, ◌↔◌, ◌<◌, IfErr, IfOk, IsFalse, IsTrue};
ghost use Rattle.pager.specs.Calls.{IsHeaderOf, IsPage};
ghost use Rattle.pager.specs.PagerState.{PagerState};
ghost use Rattle.btree.specs.declared.image.kind.TreeKind.TheVariants.{Index};
ghost use Rattle.btree.specs.declared.image.kind.Level.TheVariants.{Leaf, Interior};
ghost use Rattle.btree.specs.image.Layout.{cell_count};
ghost use Rattle.btree.specs.image.Pages.{WhereSteady};
ghost use Rattle.btree.specs.image.Tree.{Reaches};
ghost use Rattle.integrity_trees.specs.index_walk.Broken.{IsBrokenTree};
ghost use Rattle.integrity_trees.specs.index_walk.Walked.{HasAllEntries, IsIndexPage};

use btree::{Level, PageView, TreeKind, view_in};
use pager::{Header, Page};
use values::Fault;

/// Whether each entry of a page of an index is there, with a payload of at most `most` bytes.
fn has_entries(view: &PageView<'_>, most: u64) -> bool
    requires { view.now.kind ≡ Index }
    ensures { IsTrue result ↔ HasAllEntries view.now most }
{
    for i in 0..u32::from(view.count()) {
        let Some(_) = view.entry(most, i) else {
            return false;
        };
    }
    true
}

/// Whether a page has no children.
pub(crate) fn is_leaf(view: &PageView<'_>) -> bool
    ensures leaf { IsTrue result → view.now.level ≡ Leaf }
    ensures interior { IsFalse result → view.now.level ≡ Interior }
{
    view.level() == Level::Leaf
}

/// Whether page `n` has an entry, or may have none: an interior page has children, and a root may be empty.
fn is_filled(view: &PageView<'_>, root: u32, n: u32) -> bool
    ensures { IsTrue result ↔ (view.now.level ≡ Leaf → n ≢ root → 0 < cell_count view.now.at view.now.page) }
{
    !is_leaf(view) || n == root || view.count() > 0
}

/// A page that was read as page `n` of the tree of an index.
///
/// # Errors
///
/// `BadPage` where it is none, or an entry isn't there, or it is a leaf below the root without entries.
pub(crate) fn index_page<'p>(
    page: &'p Page,
    header: &Header,
    root: u32,
    n: u32,
) -> Result<PageView<'p>, Fault>
    ensures kind { IfOk result (λ view. view.kind ≡ Index) }
    ensures found { IfOk result (λ view. (pager : PagerState) → IsHeaderOf pager header.now → IsPage pager n page.now
        → WhereSteady pager (λ pages. IsIndexPage pages root n view)) }
    ensures fault { IfErr result (λ e. (e ≡ Fault.BadPage n) × ((pager : PagerState) → IsHeaderOf pager header.now
        → IsPage pager n page.now → WhereSteady pager (λ pages. Reaches pages Index root n → IsBrokenTree pages Index root e))) }
{
    let Some(view) = view_in(TreeKind::Index, page, n, header.usable as usize) else {
        return Err(Fault::BadPage(n));
    };
    if !has_entries(&view, header.image_size()) || !is_filled(&view, root, n) {
        return Err(Fault::BadPage(n));
    }
    Ok(view)
}
