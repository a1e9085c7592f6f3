//! A whole payload, whose overflow pages are marked as used.
ghost use Rattle.std.specs.Prelude.{◌≡◌, ◌⊎◌, ◌++◌, ◌<◌, ◌-◌, List, ℕ, length, option_map, IfErr, IfOk, IfSome, IsFalse, IsTrue};
ghost use Rattle.std.specs.Cow.{cow_slice_items};
ghost use Rattle.pager.specs.Calls.{IsReadFault, ReadsChainPages};
ghost use Rattle.btree.specs.image.Chain.{IsChain};
ghost use Rattle.btree.specs.image.Pages.{WhereSteady};
ghost use Rattle.btree.specs.Calls.{IsBytesOf};
ghost use Rattle.btree.specs.Views.{payload_data};
ghost use Rattle.btree.specs.page_use.Links.{IsLinkTwice, IsPayloadTwice, MarksChain, MarksPayload};
ghost use Rattle.btree.specs.page_use.Marks.{IsMarkFault};

use crate::Cell;
use crate::page_use::marks::use_page;
use crate::page_use::page::page_once;
use byteorder::{BigEndian, ByteOrder};
use pager::{Pager, Source};
use std::alloc::Global;
use std::borrow::CowSlice;
use values::Fault;

/// Appends so many bytes of a chain of overflow pages, which begins at page `first`, as its pages get their marks and are
/// read; `false` where there is no such chain.
fn append_chain<S: Source>(
    pager: &mut Pager<S>,
    first: u32,
    size: u64,
    bytes: &mut Vec<u8>,
    used: &mut [bool],
) -> Result<bool, Fault>
    requires long { pager.old.state.header.pages < length used.old }
    ensures joined { WhereSteady pager.old.state (λ pages. IfOk result (λ sound. IsTrue sound
        → (rest : List ℕ) × IsChain pages first size rest × (bytes.new.items ≡ bytes.old.items ++ rest))) }
    ensures broken { WhereSteady pager.old.state (λ pages. IfOk result (λ sound. IsFalse sound
        → (rest : List ℕ) → ¬ IsChain pages first size rest)) }
    ensures marks { WhereSteady pager.old.state (λ pages. IfOk result (λ sound. IsTrue sound
        → MarksChain pages first size used.old used.new)) }
    ensures fault { WhereSteady pager.old.state (λ pages. IfErr result (λ e. IsReadFault e ⊎ IsLinkTwice pages first size used.old e)) }
    ensures only { IfErr result IsMarkFault }
    ensures reads { ReadsChainPages result pager.old.state pager.new.state }
{
    let usable = pager.header().usable as usize;
    let mut next = first;
    let mut left = size;
    while left > 0 {
        let Some(page) = page_once(pager, next)? else {
            return Ok(false);
        };
        use_page(used, next)?;
        let piece = &page.as_slice()[..usable];
        let taken = left.min(usable as u64 - 4);
        bytes.extend_from_slice(&piece[4..4 + taken as usize])?;
        next = BigEndian::read_u32(piece);
        left -= taken;
    }
    Ok(next == 0)
}

/// The payload of a cell, as `btree` gives it, whose overflow pages get their marks: borrowed where all of it stands in the
/// cell, else joined; `None` where its overflow pages are no chain of its size. (Database File Format, section 1.7 "Cell
/// Payload Overflow Pages")
///
/// # Errors
///
/// `PageUse` of an overflow page that has its mark: another place names it too; `ReadFailed` and `NoMemory`. There is none
/// where all of it stands in the cell.
pub fn payload<'p, S: Source>(
    alloc: Global,
    pager: &mut Pager<S>,
    cell: &Cell<'p>,
    used: &mut [bool],
) -> Result<Option<CowSlice<'p, u8>>, Fault>
    requires long { pager.old.state.header.pages < length used.old }
    ensures bytes { WhereSteady pager.old.state (λ pages. IfOk result (λ found. IsBytesOf pages (payload_data cell.now.payload) (option_map cow_slice_items found))) }
    ensures marks { WhereSteady pager.old.state (λ pages. IfOk result (λ found. IfSome found (λ bytes. MarksPayload pages (payload_data cell.now.payload) used.old used.new))) }
    ensures fault { WhereSteady pager.old.state (λ pages. IfErr result (λ e. IsReadFault e ⊎ IsPayloadTwice pages (payload_data cell.now.payload) used.old e)) }
    ensures only { IfErr result IsMarkFault }
    ensures reads { ReadsChainPages result pager.old.state pager.new.state }
{
    let local = cell.payload.local;
    let Some(first) = cell.payload.overflow else {
        return Ok(Some(CowSlice::Borrowed(local)));
    };
    let mut bytes = Vec::new(alloc);
    bytes.extend_from_slice(local)?;
    let left = cell.payload.size.saturating_sub(local.len() as u64);
    if !append_chain(pager, first, left, &mut bytes, used)? {
        return Ok(None);
    }
    Ok(Some(CowSlice::Owned(bytes)))
}
