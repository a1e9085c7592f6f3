//! The children of a page that is walked.
ghost use Rattle.std.specs.Prelude.{◌≡◌, ◌≢◌, ◌<◌, ◌≤◌, IfNone, IfSome, IsFalse, IsTrue};
ghost use Rattle.btree.specs.declared.image.kind.Level.TheVariants.{Interior};
ghost use Rattle.btree.specs.image.Layout.{cell_count, child};
ghost use Rattle.btree.specs.Bytes.{LacksChild};

use btree::PageView;

/// Child i, if it is the number of one of so many pages.
pub fn child_within(view: &PageView<'_>, i: u32, pages: u32) -> Option<u32>
    requires level { view.now.level ≡ Interior }
    requires within { i ≤ cell_count view.now.at view.now.page }
    ensures found { IfSome result (λ m. (m ≡ child view.now.at view.now.page i) × (1 ≤ m) × (m ≤ pages)) }
    ensures none { (i < cell_count view.now.at view.now.page → ¬ LacksChild view.now.at view.now.page i)
        → IfNone result (¬ ((1 ≤ child view.now.at view.now.page i) × (child view.now.at view.now.page i ≤ pages))) }
{
    let child = view.child(i)?;
    if child < 1 || child > pages {
        return None;
    }
    Some(child)
}

/// Whether child i has other levels below it than the children before it.
pub fn is_uneven(i: u32, levels: u32, below: u32) -> bool
    ensures uneven { IsTrue result → (0 < i) × (below ≢ levels) }
    ensures even { IsFalse result → 0 < i → levels ≡ below }
{
    i > 0 && below != levels
}
