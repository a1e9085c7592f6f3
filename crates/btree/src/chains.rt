//! A whole payload, with its overflow pages.
ghost use Rattle.std.specs.Prelude.{◌≡◌, ◌++◌, ◌≤◌, List, ℕ, length, option_map, take, IfErr, IfNone, IfOk, IfSome, IsFalse, IsTrue, MatchResult, None, Ok, Some};
ghost use Rattle.std.specs.Cow.{cow_slice_items};
ghost use Rattle.std.specs.declared.borrow.CowSlice.TheVariants.{Borrowed};
ghost use Rattle.pager.specs.Calls.{IsReadFault, ReadsChainPages};
ghost use Rattle.btree.specs.image.Pages.{IsNumber, WhereSteady, pages_seen};
ghost use Rattle.btree.specs.image.Chain.{IsChain};
ghost use Rattle.btree.specs.Calls.{IsBytesOf};
ghost use Rattle.btree.specs.Views.{payload_data};

use crate::Cell;
use byteorder::{BigEndian, ByteOrder};
use pager::{Page, Pager, Source};
use std::alloc::Global;
use std::borrow::CowSlice;
use values::Fault;

/// An overflow page, if the number is that of a page. Its faults are `ReadFailed` and `NoMemory`.
fn overflow_page<S: Source>(pager: &mut Pager<S>, number: u32) -> Result<Option<Page>, Fault>
    ensures page { WhereSteady pager.old.state (λ pages. IfOk result (λ found. IfSome found (λ page. take pages.usable page ≡ pages.page number))) }
    ensures number { IfOk result (λ found. IfSome found (λ page. IsNumber (pages_seen pager.old.state) number)) }
    ensures long { IfOk result (λ found. IfSome found (λ page. pager.old.state.header.usable ≤ length page)) }
    ensures none { IfOk result (λ found. IfNone found (¬ IsNumber (pages_seen pager.old.state) number)) }
    ensures fault { IfErr result IsReadFault }
    ensures reads { ReadsChainPages result pager.old.state pager.new.state }
{
    if number < 1 || number > pager.header().pages {
        return Ok(None);
    }
    let page = pager.chain_page(number)?;
    Ok(Some(page))
}

/// Appends so many bytes of a chain of overflow pages, which begins at page `first`, as its pages are read; `false` where
/// there is no such chain.
fn append_chain<S: Source>(
    pager: &mut Pager<S>,
    first: u32,
    size: u64,
    bytes: &mut Vec<u8>,
) -> Result<bool, Fault>
    ensures joined { WhereSteady pager.old.state (λ pages. IfOk result (λ sound. IsTrue sound
        → (rest : List ℕ) × IsChain pages first size rest × (bytes.new.items ≡ bytes.old.items ++ rest))) }
    ensures broken { WhereSteady pager.old.state (λ pages. IfOk result (λ sound. IsFalse sound
        → (rest : List ℕ) → ¬ IsChain pages first size rest)) }
    ensures fault { IfErr result IsReadFault }
    ensures reads { ReadsChainPages result pager.old.state pager.new.state }
{
    let usable = pager.header().usable as usize;
    let mut next = first;
    let mut left = size;
    while left > 0 {
        let Some(page) = overflow_page(pager, next)? else {
            return Ok(false);
        };
        let used = &page.as_slice()[..usable];
        let taken = left.min(usable as u64 - 4);
        bytes.extend_from_slice(&used[4..4 + taken as usize])?;
        next = BigEndian::read_u32(used);
        left -= taken;
    }
    Ok(next == 0)
}

/// The payload of a cell: borrowed where all of it stands in the cell, else joined with the bytes of its overflow pages,
/// page by page as they are read; `None` where these are no chain of its size. (Database File Format, section 1.7 "Cell
/// Payload Overflow Pages")
///
/// # Errors
///
/// `ReadFailed` and `NoMemory`, and none where all of it stands in the cell.
#[inline(always)]
pub fn payload<'p, S: Source>(
    alloc: Global,
    pager: &mut Pager<S>,
    cell: &Cell<'p>,
) -> Result<Option<CowSlice<'p, u8>>, Fault>
    ensures outcome { MatchResult result
        (λ found. WhereSteady pager.old.state (λ pages. IsBytesOf pages (payload_data cell.now.payload) (option_map cow_slice_items found)))
        IsReadFault }
    ensures local { cell.now.payload.overflow ≡ None
        → (result ≡ Ok (Some (Borrowed cell.now.payload.local))) × (pager.new.state ≡ pager.old.state) }
    ensures reads { ReadsChainPages result pager.old.state pager.new.state }
{
    let local = cell.payload.local;
    let Some(first) = cell.payload.overflow else {
        return Ok(Some(CowSlice::Borrowed(local)));
    };
    let mut bytes = Vec::new(alloc);
    bytes.extend_from_slice(local)?;
    let left = cell.payload.size.saturating_sub(local.len() as u64);
    if !append_chain(pager, first, left, &mut bytes)? {
        return Ok(None);
    }
    Ok(Some(CowSlice::Owned(bytes)))
}
