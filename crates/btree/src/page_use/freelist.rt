//! The freelist.
ghost use Rattle.std.specs.Prelude.{◌≡◌, ◌≢◌, ◌⊎◌, ◌+◌, ◌*◌, ◌<◌, ◌≤◌, ℕ, suc, IfErr, IfOk, List, OnOk, length};
ghost use Rattle.pager.specs.Calls.{ReadsChainPages};
ghost use Rattle.pager.specs.Header.{field};
ghost use Rattle.btree.specs.image.Freelist.{IsFreelist, IsSoundTrunk, leaf_count, next_trunk};
ghost use Rattle.btree.specs.image.Pages.{Pages, WhereSteady};
ghost use Rattle.btree.specs.image.Use.{Use, Users};
ghost use Rattle.btree.specs.page_use.FreeWalk.{IsFreeFault, IsLeafTwice, IsNextTrunk, IsOpenTrunk, IsTrunkFault, IsWithin, leaf_in};
ghost use Rattle.btree.specs.page_use.Marks.{AreMarks, AreTreeMarks, IsGoneAfter, IsGoneWith, IsUseFault};

use crate::page_use::marks::mark;
use crate::page_use::page::page_once;
use byteorder::{BigEndian, ByteOrder};
use pager::{Pager, Source};
use values::Fault;

/// The number at a place of a trunk page's used bytes.
#[tactic(auto, unfolding(pager::specs::Header::field))]
fn number_at(bytes: &[u8], place: usize) -> u32
    requires { place + 4 ≤ length bytes.now }
    ensures { result ≡ field bytes.now place 4 }
{
    BigEndian::read_u32(&bytes[place..])
}

/// Gives each page that a trunk page names its mark.
fn mark_leaves(bytes: &[u8], count: u32, pages: u32, used: &mut [bool]) -> Result<(), Fault>
    requires room { 8 + 4 * count ≤ length bytes.now }
    requires long { pages < length used.old }
    requires few { length bytes.now ≤ 65536 }
    ensures sound { OnOk result ((i : ℕ) → i < count → IsWithin pages (leaf_in bytes.now i)) }
    ensures marks { OnOk result ((image : Pages) (users : Users) (done : List Use) (k : ℕ) → image.count ≡ pages
        → IsOpenTrunk image users done k 0 bytes.now count used.old → AreMarks image users (IsGoneWith done k (suc k) count) used.new) }
    ensures fault { IfErr result (λ e. ((e ≡ Fault.BadFreelist) × ((i : ℕ) × (i < count) × (¬ IsWithin pages (leaf_in bytes.now i))))
        ⊎ IsLeafTwice pages bytes.now count used.old e) }
    ensures only { IfErr result IsUseFault }
    ensures read { IfErr result (λ e. e ≢ Fault.ReadFailed) }
{
    for i in 0..count {
        let leaf = number_at(bytes, 8 + 4 * i as usize);
        if leaf < 1 || leaf > pages {
            return Err(Fault::BadFreelist);
        }
        if !mark(used, leaf) {
            return Err(Fault::PageUse(leaf));
        }
    }
    Ok(())
}

/// Gives a trunk page and the pages that it names their marks, and tells the next trunk page and how many pages are left.
fn mark_trunk<S: Source>(
    pager: &mut Pager<S>,
    number: u32,
    left: u32,
    used: &mut [bool],
) -> Result<(u32, u32), Fault>
    requires long { pager.old.state.header.pages < length used.old }
    ensures sound { WhereSteady pager.old.state (λ pages. OnOk result (IsSoundTrunk pages number)) }
    ensures next { WhereSteady pager.old.state (λ pages. IfOk result (λ r. r.0 ≡ next_trunk pages number)) }
    ensures left { WhereSteady pager.old.state (λ pages. IfOk result (λ r. r.1 + (1 + leaf_count pages number) ≡ left)) }
    ensures less { IfOk result (λ r. r.1 < left) }
    ensures marks { WhereSteady pager.old.state (λ pages. OnOk result ((users : Users) (done : List Use) (k : ℕ)
        → IsNextTrunk pages users done k number used.old → AreMarks pages users (IsGoneWith done (suc k) (suc k) 0) used.new)) }
    ensures fault { WhereSteady pager.old.state (λ pages. IfErr result (IsTrunkFault pages number left used.old)) }
    ensures only { IfErr result IsUseFault }
    ensures reads { ReadsChainPages result pager.old.state pager.new.state }
{
    let header = pager.header();
    let Some(page) = page_once(pager, number)? else {
        return Err(Fault::BadFreelist);
    };
    let bytes = &page.as_slice()[..header.usable as usize];
    let count = number_at(bytes, 4);
    if count as u64 * 4 + 8 > header.usable as u64 || count >= left {
        return Err(Fault::BadFreelist);
    }
    if !mark(used, number) {
        return Err(Fault::PageUse(number));
    }
    mark_leaves(bytes, count, header.pages, used)?;
    Ok((number_at(bytes, 0), left - count - 1))
}

/// Gives each page of the freelist its mark, and tests that the freelist is one, of as many pages as the header says. Each
/// step takes a page of that count, so that a loop ends. Its faults are `BadFreelist`, `PageUse` of a page of the freelist
/// that has its mark, `ReadFailed`, and `NoMemory`. (Database File Format, section 1.5 "The Freelist")
pub(crate) fn check_freelist<S: Source>(
    pager: &mut Pager<S>,
    used: &mut [bool],
) -> Result<(), Fault>
    requires long { pager.old.state.header.pages < length used.old }
    ensures freelist { WhereSteady pager.old.state (λ pages. OnOk result (IsFreelist pages pager.old.state.header.freelist pager.old.state.header.free_pages)) }
    ensures marks { WhereSteady pager.old.state (λ pages. OnOk result ((users : Users) (done : List Use) → users.first ≡ pager.old.state.header.freelist
        → AreTreeMarks pages users done used.old → AreMarks pages users (IsGoneAfter done) used.new)) }
    ensures fault { WhereSteady pager.old.state (λ pages. IfErr result (IsFreeFault pages pager.old.state.header.freelist pager.old.state.header.free_pages used.old)) }
    ensures only { IfErr result IsUseFault }
    ensures reads { ReadsChainPages result pager.old.state pager.new.state }
{
    let header = pager.header();
    let mut next = header.freelist;
    let mut left = header.free_pages;
    while next != 0 {
        let (after, fewer) = mark_trunk(pager, next, left, used)?;
        next = after;
        left = fewer;
    }
    if left != 0 {
        return Err(Fault::BadFreelist);
    }
    Ok(())
}
