//! What the check of an image leaves for searches.
ghost use Rattle.std.specs.Prelude.{◌≡◌, ℕ, List};
ghost use Rattle.pager.specs.PagerState.{PagerState};
ghost use Rattle.btree.specs.image.Pages.{Pages, WhereSteady};
ghost use Rattle.records_searches.specs.Entries.{EntryData, HoldsEntries, SearchedData};
ghost use Rattle.integrity.specs.Checked.{CheckedData, HasCheckedImage};
ghost use Rattle.integrity.specs.Searched.{AreSearched, entry_rows};

/// Each table of an image that was checked is searched by its rowids or its PRIMARY KEY, and each index by its columns: the entries of
/// its tree are in order, each leads to the row with its rowid or its PRIMARY KEY, and these are the rows of its table on which the
/// index's condition is true. (Database File Format, sections 2.3 and 2.4; Partial Indexes)
pub fn checked_image_is_searched()
    ensures { (pager : PagerState) (checked : CheckedData) → HasCheckedImage pager checked → WhereSteady pager (λ pages. AreSearched pages checked) }
{}

/// A table or an index has one list of rows, to which the entries of its tree lead.
pub fn searched_rows_are_one()
    ensures { (searched : SearchedData) (pages : Pages) (levels others : ℕ) (one other : List EntryData) → HoldsEntries searched pages levels one
        → HoldsEntries searched pages others other → entry_rows one ≡ entry_rows other }
{}
