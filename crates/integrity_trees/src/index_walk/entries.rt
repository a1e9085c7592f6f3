//! An entry of an index, which is read whole, with its overflow pages, and comes after the last one.
ghost use Rattle.std.specs.Prelude.{◌≡◌, ◌<◌, IfErr, IfOk, IsTrue, OnOk, length};
ghost use Rattle.std.specs.Cow.{cow_slice_items};
ghost use Rattle.pager.specs.Calls.{ReadsChainPages};
ghost use Rattle.btree.specs.declared.image.kind.TreeKind.TheVariants.{Index};
ghost use Rattle.btree.specs.declared.image.kind.Level.TheVariants.{Leaf};
ghost use Rattle.btree.specs.image.Layout.{cell_count};
ghost use Rattle.btree.specs.image.Pages.{WhereSteady};
ghost use Rattle.btree.specs.ViewData.{TellsOfCell};
ghost use Rattle.btree_cursor.specs.index_entries.Entries.{IsViewIn};
ghost use Rattle.integrity_trees.specs.tree_walk.Cells.{MarksCells};
ghost use Rattle.integrity_trees.specs.index_walk.Checked.{IsIndexWalkFault, index_tree};
ghost use Rattle.integrity_trees.specs.index_walk.Last.{IsFrom, blamed_at};
ghost use Rattle.integrity_trees.specs.index_walk.Walked.{AreOwnWalked, BreaksWidth, IsEntryCause, IsEntryRead, IsEntryStop, IsEntryWalked, IsIndexPage, IsLeafCause, IsLeafWalked, IsRecordOf};

use crate::index_walk::last::LastEntry;
use crate::index_walk::page::is_leaf;
use crate::index_walk::tree::{EntryWidths, IndexTree};
use btree::PageView;
use btree::page_use::payload;
use pager::{Pager, Source};
use records::{FieldReader, RecordFault, RecordView};
use std::alloc::Global;
use std::borrow::CowSlice;
use values::Fault;

/// Whether these bytes are a record of as many values as an entry has at most, each of which is looked at in place. `false` says
/// nothing of them.
fn is_widest(bytes: &[u8], widths: EntryWidths) -> bool
    ensures { IsTrue result → IsRecordOf widths bytes.now }
{
    if widths.key > widths.most {
        return false;
    }
    let Some(mut fields) = FieldReader::new(bytes) else {
        return false;
    };
    for _passed in 0..widths.most {
        let Some(_value) = fields.read() else {
            return false;
        };
    }
    fields.is_done()
}

/// Tests that these bytes of page `n` are a record of as many values as an entry may have.
fn check_record(alloc: Global, bytes: &[u8], widths: EntryWidths, n: u32) -> Result<(), Fault>
    ensures found { OnOk result (IsRecordOf widths bytes.now) }
    ensures fault { IfErr result (BreaksWidth widths bytes.now n) }
    ensures only { IfErr result IsIndexWalkFault }
{
    if is_widest(bytes, widths) {
        return Ok(());
    }
    // What others are or break is found by a second reading.
    match RecordView::read(alloc, bytes) {
        Ok(fields) => {
            if !widths.allow(fields.count()) {
                return Err(Fault::BadRecord(n));
            }
            Ok(())
        }
        Err(RecordFault::Bad) => Err(Fault::BadRecord(n)),
        Err(RecordFault::Float) => Err(Fault::FloatValue),
        Err(RecordFault::Text) => Err(Fault::BadText),
        Err(RecordFault::NoMemory) => Err(Fault::NoMemory),
    }
}

/// The record of entry i of page `n` of an index, which was read as this view. Its overflow pages get their marks.
fn entry_record<'p, S: Source>(
    alloc: Global,
    pager: &mut Pager<S>,
    view: &PageView<'p>,
    n: u32,
    i: u32,
    widths: EntryWidths,
    used: &mut [bool],
) -> Result<CowSlice<'p, u8>, Fault>
    requires cell { TellsOfCell view.now Index view.now.level i }
    requires long { pager.old.state.header.pages < length used.old }
    ensures entry { WhereSteady pager.old.state (λ pages. IsViewIn pages n view.now
        → IfOk result (λ bytes. IsEntryRead pages widths view.now.level n i (cow_slice_items bytes) used.old used.new)) }
    ensures fault { WhereSteady pager.old.state (λ pages. IsViewIn pages n view.now
        → IfErr result (IsEntryCause pages widths view.now.level n i used.old)) }
    ensures only { IfErr result IsIndexWalkFault }
    ensures reads { ReadsChainPages result pager.old.state pager.new.state }
{
    let most = pager.header().image_size();
    let Some(cell) = view.entry(most, i) else {
        return Err(Fault::BadPage(n));
    };
    let Some(bytes) = payload(alloc, pager, &cell, used)? else {
        return Err(Fault::BadChain(n));
    };
    check_record(alloc, bytes.as_slice(), widths, n)?;
    Ok(bytes)
}

/// Which page is blamed where an entry of page `n` doesn't come behind the last one.
fn blamed_page(view: &PageView<'_>, n: u32, last: &LastEntry) -> u32
    ensures { result ≡ blamed_at view.now.level n last.now.page }
{
    if is_leaf(view) {
        return n;
    }
    last.page().unwrap_or(n)
}

/// Tests entry i of page `n` of an index, which was read as this view, and that it comes behind the last one.
fn check_entry<S: Source>(
    alloc: Global,
    pager: &mut Pager<S>,
    tree: &IndexTree<'_>,
    view: &PageView<'_>,
    n: u32,
    i: u32,
    last: &mut LastEntry,
    used: &mut [bool],
) -> Result<(), Fault>
    requires cell { TellsOfCell view.now Index view.now.level i }
    requires long { pager.old.state.header.pages < length used.old }
    ensures entry { WhereSteady pager.old.state (λ pages. IsViewIn pages n view.now
        → OnOk result
        (IsEntryWalked pages tree.now.widths tree.now.descends.now view.now.level n i used.old used.new last.old last.new)) }
    ensures fault { WhereSteady pager.old.state (λ pages. IsViewIn pages n view.now
        → IfErr result (IsEntryStop pages tree.now.widths tree.now.descends.now view.now.level n i last.old used.old)) }
    ensures only { IfErr result IsIndexWalkFault }
    ensures reads { ReadsChainPages result pager.old.state pager.new.state }
{
    let bytes = entry_record(alloc, pager, view, n, i, tree.widths, used)?;
    let blamed = blamed_page(view, n, last);
    last.follow(tree, bytes.as_slice(), n, blamed)?;
    Ok(())
}

/// Tests the entries of page `n` of an index, a leaf, which was read as this view. Their overflow pages get their marks.
pub(crate) fn check_leaf<S: Source>(
    alloc: Global,
    pager: &mut Pager<S>,
    tree: &IndexTree<'_>,
    view: &PageView<'_>,
    n: u32,
    last: &mut LastEntry,
    used: &mut [bool],
) -> Result<(), Fault>
    requires kind { view.now.kind ≡ Index }
    requires leaf { view.now.level ≡ Leaf }
    requires long { pager.old.state.header.pages < length used.old }
    ensures entries { WhereSteady pager.old.state (λ pages. IsIndexPage pages tree.now.root n view.now
        → OnOk result (IsLeafWalked pages tree.now.widths tree.now.descends.now n last.old last.new)) }
    ensures marks { WhereSteady pager.old.state (λ pages. IsIndexPage pages tree.now.root n view.now
        → OnOk result (MarksCells pages (index_tree tree.now.root) Leaf n used.old used.new)) }
    ensures fault { WhereSteady pager.old.state (λ pages. IsIndexPage pages tree.now.root n view.now
        → IsFrom pages tree.now.widths tree.now.root last.old n
        → IfErr result (IsLeafCause pages tree.now.widths tree.now.descends.now tree.now.root n used.old)) }
    ensures only { IfErr result IsIndexWalkFault }
    ensures reads { ReadsChainPages result pager.old.state pager.new.state }
{
    for i in 0..u32::from(view.count()) {
        check_entry(alloc, pager, tree, view, n, i, last, used)?;
    }
    Ok(())
}

/// Tests the entry that stands behind child i of page `n` of an index, and tells how many there are: none behind the last
/// child. Its overflow pages get their marks.
pub(crate) fn check_own<S: Source>(
    alloc: Global,
    pager: &mut Pager<S>,
    tree: &IndexTree<'_>,
    view: &PageView<'_>,
    n: u32,
    i: u32,
    last: &mut LastEntry,
    used: &mut [bool],
) -> Result<u64, Fault>
    requires kind { view.now.kind ≡ Index }
    requires long { pager.old.state.header.pages < length used.old }
    ensures some { IfErr result (λ e. i < cell_count view.now.at view.now.page) }
    ensures own { WhereSteady pager.old.state (λ pages. IsViewIn pages n view.now → IfOk result (λ own.
        AreOwnWalked pages tree.now.widths tree.now.descends.now view.now.level n i own used.old used.new last.old last.new)) }
    ensures fault { WhereSteady pager.old.state (λ pages. IsViewIn pages n view.now
        → IfErr result (IsEntryStop pages tree.now.widths tree.now.descends.now view.now.level n i last.old used.old)) }
    ensures only { IfErr result IsIndexWalkFault }
    ensures reads { ReadsChainPages result pager.old.state pager.new.state }
{
    if i >= u32::from(view.count()) {
        return Ok(0);
    }
    check_entry(alloc, pager, tree, view, n, i, last, used)?;
    Ok(1)
}
