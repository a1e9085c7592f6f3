//! Searches in a page.
ghost use Rattle.std.specs.Prelude.{◌≡◌, ◌<◌, ℕ, ℤ, IfSome, IsSome};
ghost use Rattle.btree.specs.declared.image.kind.TreeKind.{TreeKind};
ghost use Rattle.btree.specs.image.Layout.{cell_count};
ghost use Rattle.btree.specs.image.Search.{IsBoundaryOf, row_before};
ghost use Rattle.btree.specs.Bytes.{HasKeyOf};

use btree::PageView;

/// Whether a rowid comes before the key: it is less or, where what is behind the key is sought, equal.
#[inline]
fn comes_before(behind: bool, key: i64, rowid: i64) -> bool
    ensures { result ≡ row_before behind key rowid }
{
    rowid < key || (behind && rowid == key)
}

/// How many cells of a table's page come before the key, as the two beside the boundary tell, where keys ascend; `None`
/// where a cell isn't there. Of n cells no more than log n + 1 are looked at.
pub(crate) fn boundary_of(view: &PageView<'_>, most: u64, behind: bool, key: i64) -> Option<u16>
    requires kind { view.now.kind ≡ TreeKind.Table }
    ensures found { IfSome result
        (IsBoundaryOf (HasKeyOf view.now.at most view.now.level view.now.page) (row_before behind key) (cell_count view.now.at view.now.page)) }
    ensures sure { ((i : ℕ) → i < cell_count view.now.at view.now.page → (rowid : ℤ) × HasKeyOf view.now.at most view.now.level view.now.page i rowid)
        → IsSome result }
{
    let mut low: u16 = 0;
    let mut high = view.count();
    while low < high {
        let middle = low + (high - low) / 2;
        let rowid = view.key(most, middle as u32)?;
        if comes_before(behind, key, rowid) {
            low = middle + 1;
        } else {
            high = middle;
        }
    }
    Some(low)
}
