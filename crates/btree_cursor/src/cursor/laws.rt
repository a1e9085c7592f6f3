//! What follows from what the calls promise.
ghost use Rattle.std.specs.Prelude.{◌≡◌, ◌+◌, ◌*◌, ◌≤◌, ℕ, ℤ, Bool, false, List};
ghost use Rattle.values.specs.Datum.{Datum};
ghost use Rattle.pager.specs.PagerState.{PagerState};
ghost use Rattle.pager.specs.Calls.{SameImage};
ghost use Rattle.btree.specs.image.Pages.{WhereSteady};
ghost use Rattle.btree.specs.image.Tree.{Place};
ghost use Rattle.btree_cursor.specs.declared.index_entries.columns.IndexKey.{IndexKey};
ghost use Rattle.btree_cursor.specs.declared.cursor.cursor.Cursor.{Cursor};
ghost use Rattle.btree_cursor.specs.cursor.Search.{HasRowWith, IsEntrySought, IsRowSought, IsSearchable, IsSearchableIndex};
ghost use Rattle.btree_cursor.specs.cursor.Steps.{HasGoneOn};

/// A search of a table in order whose tree has d levels of pages, and m steps behind it, ask for at most d(m + 2) pages, and for
/// at most d(m + 1) where a row with the rowid is there and is sought itself.
pub fn search_and_rows_ask_for_few()
    ensures any { (old new last : PagerState) (root : ℕ) (behind : Bool) (rowid : ℤ) (cursor now : Cursor) (m levels : ℕ)
        → IsRowSought old new root behind rowid cursor → SameImage old new → HasGoneOn new cursor m last now
        → WhereSteady old (λ pages. IsSearchable pages levels root → last.asked ≤ old.asked + (levels + 1) * (m + 2)) }
    ensures direct { (old new last : PagerState) (root : ℕ) (behind : Bool) (rowid : ℤ) (cursor now : Cursor) (m levels : ℕ)
        → IsRowSought old new root behind rowid cursor → SameImage old new → HasGoneOn new cursor m last now
        → WhereSteady old (λ pages. IsSearchable pages levels root → behind ≡ false → HasRowWith pages levels root rowid
        → last.asked ≤ old.asked + (levels + 1) * (m + 1)) }
{}

/// A search of an index in order whose tree has d levels of pages, and m steps behind it, ask for at most d(m + 1) pages of the
/// tree.
pub fn search_and_entries_ask_for_few()
    ensures any { (old new last : PagerState) (root : ℕ) (key : IndexKey) (cursor now : Cursor) (m levels : ℕ)
        → IsEntrySought old new root key cursor → SameImage old new → HasGoneOn new cursor m last now
        → WhereSteady old (λ pages. (values : Place → List Datum) → IsSearchableIndex pages key.descends.now values levels root
        → last.asked ≤ old.asked + (levels + 1) * (m + 1)) }
{}
