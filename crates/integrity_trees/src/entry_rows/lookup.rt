//! Whether an index has an entry.
ghost use Rattle.std.specs.Prelude.{◌≡◌, ◌⊎◌, ◌↔◌, ℕ, Contains, IfErr, IsTrue, List, MatchResult, map};
ghost use Rattle.values.specs.Datum.{Datum};
ghost use Rattle.pager.specs.Calls.{IsReadFault, ReadsPages};
ghost use Rattle.btree.specs.declared.image.kind.TreeKind.TheVariants.{Index};
ghost use Rattle.btree.specs.image.Broken.{BlamesMet};
ghost use Rattle.btree.specs.image.Pages.{WhereSteady};
ghost use Rattle.btree.specs.image.Shape.{places_under};
ghost use Rattle.btree.specs.image.Tree.{Place};
ghost use Rattle.btree_cursor.specs.cursor.Search.{BlamesEntry, IsIndexFault, IsSearchableIndex, IsUnchainedIndex};

use crate::entry_rows::rows::entry_row;
use btree_cursor::{Cursor, End, IndexKey};
use pager::{Pager, Source};
use std::alloc::Global;
use values::{Fault, Row};

/// Whether the index that has this root, and whose columns descend where that is told, has an entry with these values. Its
/// faults are those of `Cursor::seek_entry`, also where the entry that the search leads to can't be read. No page of an overflow
/// chain is asked for where no entry of the index has one.
pub fn has_entry<'k, S: Source>(
    alloc: Global,
    pager: &mut Pager<S>,
    root: u32,
    descends: &'k [bool],
    wanted: &'k Row,
) -> Result<bool, Fault>
    ensures found { WhereSteady pager.old.state (λ pages. (values : Place → List Datum) (levels : ℕ)
        → IsSearchableIndex pages descends.now values levels root
        → MatchResult result (λ found. IsTrue found ↔ Contains (map values (places_under pages Index levels root)) wanted.now) IsReadFault) }
    ensures only { IfErr result (IsIndexFault root) }
    ensures cause { WhereSteady pager.old.state (λ pages.
        IfErr result (λ e. IsReadFault e ⊎ (BlamesMet pages Index root e ⊎ BlamesEntry pages root e))) }
    ensures unchained { WhereSteady pager.old.state (λ pages. IsUnchainedIndex pages root
        → pager.new.state.chained ≡ pager.old.state.chained) }
    ensures reads { ReadsPages result pager.old.state pager.new.state }
{
    let key = IndexKey {
        descends,
        equal: wanted.as_slice(),
        end: End {
            value: None,
            behind: false,
        },
    };
    let cursor = Cursor::seek_entry(alloc, pager, root, &key)?;
    let Some(cell) = cursor.entry()? else {
        return Ok(false);
    };
    let page = cursor.page().unwrap_or(root);
    let row = entry_row(alloc, pager, &cell, page)?;
    Ok(row == *wanted)
}
