//! One cell of a tree by its whole key: the row with a rowid, or the entry with the values of a key. Nothing is kept of the
//! way down, so that no memory is taken beyond the page that has the cell.
ghost use Rattle.std.specs.Prelude.{◌≡◌, ◌⊎◌, ◌+◌, ◌<◌, ◌≤◌, ℕ, List, map, Err, IfErr, IfOk, IfSome, MatchResult, Some};
ghost use Rattle.values.specs.Datum.{Datum, datum_of};
ghost use Rattle.pager.specs.Calls.{IsReadFault, ReadsPages, ReadsTreePages};
ghost use Rattle.pager.specs.PagerState.{IsPageNumber};
ghost use Rattle.btree.specs.declared.image.kind.TreeKind.{TreeKind};
ghost use Rattle.btree.specs.declared.image.kind.TreeKind.TheVariants.{Table, Index};
ghost use Rattle.btree.specs.image.Broken.{BlamesMet};
ghost use Rattle.btree.specs.image.Pages.{Pages, IsNumber, WhereSteady, pages_seen};
ghost use Rattle.btree.specs.image.Tree.{Place, IsEntryAt};
ghost use Rattle.btree.specs.Views.{cell_data};
ghost use Rattle.btree_cursor.specs.cursor.Calls.{IsCursorFault};
ghost use Rattle.btree_cursor.specs.cursor.Found.{AsksOneWay, IsEntryFound, IsFirst, IsFoundIn, IsLeafFor, IsRowFound, place_found};
ghost use Rattle.btree_cursor.specs.cursor.Held.{HasEntryHere};
ghost use Rattle.btree_cursor.specs.cursor.Search.{AreEntriesSought, BlamesEntry, IsEntrySeekFault, IsIndexFault, IsSearchable, IsSearchableIndex, IsSeekFault, IsUnchainedIndex};
ghost use Rattle.btree_cursor.specs.cursor.Way.{StandsOn};
ghost use Rattle.btree_cursor.specs.index_entries.Sought.{sought};

use crate::cursor::cursor::{Frame, boundary_in, cell_of, child_of, entries_before, read_frame};
use crate::cursor::found::Found;
use crate::index_entries::{IndexKey, cell_comes_before};
use crate::key_ranges::End;
use btree::{Cell, Level, MOST_LEVELS, TreeKind};
use pager::{Pager, Source};
use std::alloc::Global;
use values::{Fault, Value};

impl Found {
    /// The cell.
    #[inline]
    pub fn cell(&self) -> Cell<'_>
        ensures entry { (image : Pages) (kind : TreeKind) (root : ℕ) → IsFoundIn image kind root self.now
            → IsEntryAt image kind (place_found self.now) (cell_data result) }
        ensures held { HasEntryHere self.now.kind self.now.usable self.now.most self.now.frame (cell_data result) }
    {
        match cell_of(self.kind, &self.frame, self.usable, self.most) {
            Some(cell) => cell,
            None => unreachable!(),
        }
    }

    /// The page that has it.
    pub fn page(&self) -> u32
        ensures { result ≡ (place_found self.now).page }
    {
        self.frame.number
    }
}

/// Goes down from a table's root to a leaf, on each page to the first cell that doesn't come before a rowid. Its faults are
/// those of `Cursor::first`.
fn leaf_for<S: Source>(root: u32, pager: &mut Pager<S>, rowid: i64) -> Result<Frame, Fault>
    requires { IsPageNumber pager.old.state root }
    ensures lands { WhereSteady pager.old.state (λ pages. (levels : ℕ) → IsSearchable pages levels root
        → MatchResult result (IsLeafFor pages levels root rowid) IsReadFault) }
    ensures way { WhereSteady pager.old.state (λ pages. MatchResult result (StandsOn pages Table root)
        (λ e. IsReadFault e ⊎ BlamesMet pages Table root e)) }
    ensures asks { AsksOneWay pager.old.state pager.new.state Table root }
    ensures fault { IfErr result (IsCursorFault root) }
    ensures reads { ReadsTreePages result pager.old.state pager.new.state }
{
    let header = pager.header();
    let usable = header.usable as usize;
    let most = header.image_size();
    let mut number = root;
    for _above in 0..MOST_LEVELS {
        let frame = read_frame(pager, TreeKind::Table, number)?;
        let Some(at) = boundary_in(&frame, usable, most, false, rowid) else {
            return Err(Fault::BadPage(number));
        };
        match frame.level {
            Level::Leaf => return Ok(Frame { at, ..frame }),
            Level::Interior => {
                let Some(child) = child_of(TreeKind::Table, &frame, usable, at as u32, header.pages)
                else {
                    return Err(Fault::BadPage(number));
                };
                number = child;
            }
        }
    }
    let endless = Fault::BadDepth(root);
    Err(endless)
}

/// The row of a table that has this rowid; none where the table has no such row. Its faults are those of `Cursor::first`.
pub fn find_row<S: Source>(
    pager: &mut Pager<S>,
    root: u32,
    rowid: i64,
) -> Result<Option<Found>, Fault>
    ensures outcome { MatchResult result (IsRowFound pager.old.state root rowid) (IsSeekFault pager.old.state root) }
    ensures outside { ¬ IsNumber (pages_seen pager.old.state) root → result ≡ Err (Fault.BadPage root) }
    ensures asks { AsksOneWay pager.old.state pager.new.state Table root }
    ensures reads { ReadsTreePages result pager.old.state pager.new.state }
{
    let header = pager.header();
    if root < 1 || root > header.pages {
        return Err(Fault::BadPage(root));
    }
    let usable = header.usable as usize;
    let most = header.image_size();
    let frame = leaf_for(root, pager, rowid)?;
    if frame.at >= frame.count {
        return Ok(None);
    }
    let Some(cell) = cell_of(TreeKind::Table, &frame, usable, most) else {
        return Err(Fault::BadPage(frame.number));
    };
    if cell.rowid != Some(rowid) {
        return Ok(None);
    }
    let found = Found {
        kind: TreeKind::Table,
        frame,
        usable,
        most,
    };
    Ok(Some(found))
}

/// Where a page was left: its entry there or, where all of its entries were passed, the one of a page above.
fn entry_left(frame: Frame, above: Option<Frame>) -> Option<Frame>
    ensures own { frame.at < frame.count → result ≡ Some frame }
    ensures above { frame.count ≤ frame.at → result ≡ above }
{
    if frame.at < frame.count {
        return Some(frame);
    }
    above
}

/// The first entry of an index that doesn't come before what is sought, on a leaf or on a page above it. Its faults are those
/// of `Cursor::seek_entry`.
fn first_entry<S: Source>(
    alloc: Global,
    root: u32,
    pager: &mut Pager<S>,
    key: &IndexKey<'_>,
) -> Result<Option<Frame>, Fault>
    requires { IsPageNumber pager.old.state root }
    ensures lands { WhereSteady pager.old.state (λ pages. (levels : ℕ) (values : Place → List Datum)
        → IsSearchableIndex pages key.now.descends.now values levels root
        → MatchResult result (λ first. AreEntriesSought pages key.now values levels root (λ places. IsFirst pages places first)) IsReadFault) }
    ensures way { WhereSteady pager.old.state (λ pages. MatchResult result (λ first. IfSome first (StandsOn pages Index root))
        (λ e. IsReadFault e ⊎ (BlamesMet pages Index root e ⊎ BlamesEntry pages root e))) }
    ensures within { IfOk result (λ first. IfSome first (λ frame. frame.at < frame.count)) }
    ensures asks { AsksOneWay pager.old.state pager.new.state Index root }
    ensures fault { IfErr result (IsIndexFault root) }
    ensures unchained { WhereSteady pager.old.state (λ pages. IsUnchainedIndex pages root
        → pager.new.state.chained ≡ pager.old.state.chained) }
    ensures reads { ReadsPages result pager.old.state pager.new.state }
{
    let header = pager.header();
    let usable = header.usable as usize;
    let mut number = root;
    let mut left = None;
    for _above in 0..MOST_LEVELS {
        let frame = read_frame(pager, TreeKind::Index, number)?;
        let at = entries_before(alloc, pager, &frame, key)?;
        match frame.level {
            Level::Leaf => return Ok(entry_left(Frame { at, ..frame }, left)),
            Level::Interior => {
                let Some(child) = child_of(TreeKind::Index, &frame, usable, at as u32, header.pages)
                else {
                    return Err(Fault::BadPage(number));
                };
                left = entry_left(Frame { at, ..frame }, left);
                number = child;
            }
        }
    }
    let endless = Fault::BadDepth(root);
    Err(endless)
}

/// What is sought at a key, or after the entries that agree with it.
fn sought_at<'a>(descends: &'a [bool], key: &'a [Value], behind: bool) -> IndexKey<'a>
    ensures descends { result.descends.now ≡ descends.now }
    ensures sought { sought result ≡ record { key = map datum_of key.now; behind = behind } }
{
    IndexKey {
        descends,
        equal: key,
        end: End {
            value: None,
            behind,
        },
    }
}

/// The first entry of an index whose first columns have the values of a key, on a leaf or on a page above it: where the key
/// is whole, the entry with this key. There is none where no entry agrees with the key. Which columns of the index descend,
/// `descends` tells; further ones ascend. Its faults are those of `Cursor::seek_entry`. No page of an overflow chain is asked
/// for where no entry of the index has one.
pub fn find_entry<S: Source>(
    alloc: Global,
    pager: &mut Pager<S>,
    root: u32,
    descends: &[bool],
    key: &[Value],
) -> Result<Option<Found>, Fault>
    ensures outcome { MatchResult result (IsEntryFound pager.old.state root descends.now (map datum_of key.now))
        (IsEntrySeekFault pager.old.state root descends.now) }
    ensures outside { ¬ IsNumber (pages_seen pager.old.state) root → result ≡ Err (Fault.BadPage root) }
    ensures asks { AsksOneWay pager.old.state pager.new.state Index root }
    ensures unchained { WhereSteady pager.old.state (λ pages. IsUnchainedIndex pages root
        → pager.new.state.chained ≡ pager.old.state.chained) }
    ensures reads { ReadsPages result pager.old.state pager.new.state }
{
    let header = pager.header();
    if root < 1 || root > header.pages {
        return Err(Fault::BadPage(root));
    }
    let usable = header.usable as usize;
    let most = header.image_size();
    let sought = sought_at(descends, key, false);
    let Some(frame) = first_entry(alloc, root, pager, &sought)? else {
        return Ok(None);
    };
    let Some(cell) = cell_of(TreeKind::Index, &frame, usable, most) else {
        return Err(Fault::BadPage(frame.number));
    };
    let after = sought_at(descends, key, true);
    let agrees = cell_comes_before(alloc, pager, &cell, frame.number, &after)?;
    if !agrees {
        return Ok(None);
    }
    let found = Found {
        kind: TreeKind::Index,
        frame,
        usable,
        most,
    };
    Ok(Some(found))
}
