//! The rest of the check of page use, after the trees were walked: the freelist, and that every page is used.
ghost use Rattle.std.specs.Prelude.{◌≡◌, ◌⊎◌, ◌<◌, ℕ, IfErr, List, OnOk, length};
ghost use Rattle.pager.specs.Calls.{IsReadFault, ReadsChainPages};
ghost use Rattle.btree.specs.image.Freelist.{IsFreelist};
ghost use Rattle.btree.specs.image.Pages.{IsNumber, WhereSteady};
ghost use Rattle.btree.specs.image.Use.{IsBrokenUse, IsUsedOnce, Use, Users};
ghost use Rattle.btree.specs.page_use.Marks.{AreAllOfTrees, AreTreeMarks, IsUseFault};

use crate::page_use::freelist::check_freelist;
use crate::page_use::marks::find_unused;
use pager::{Pager, Source};
use values::Fault;

/// Tests the freelist, and that each page of the image is used once, where the marks are those of the trees with their
/// chains. (Database File Format, section 1.5 "The Freelist")
///
/// # Errors
///
/// `BadFreelist` and `PageUse` where that condition is broken; `ReadFailed` and `NoMemory`.
pub fn check_rest<S: Source>(pager: &mut Pager<S>, used: &mut [bool]) -> Result<(), Fault>
    requires long { pager.old.state.header.pages < length used.old }
    ensures freelist { WhereSteady pager.old.state (λ pages. OnOk result (IsFreelist pages pager.old.state.header.freelist pager.old.state.header.free_pages)) }
    ensures once { WhereSteady pager.old.state (λ pages. OnOk result ((users : Users) (done : List Use) → users.first ≡ pager.old.state.header.freelist
        → AreTreeMarks pages users done used.old → AreAllOfTrees pages users done → (n : ℕ) → IsNumber pages n → IsUsedOnce pages users n)) }
    ensures fault { WhereSteady pager.old.state (λ pages. IfErr result (λ e. IsReadFault e
        ⊎ ((users : Users) (done : List Use) → users.first ≡ pager.old.state.header.freelist → AreTreeMarks pages users done used.old
        → AreAllOfTrees pages users done → IsBrokenUse pages users pager.old.state.header.free_pages e))) }
    ensures only { IfErr result IsUseFault }
    ensures reads { ReadsChainPages result pager.old.state pager.new.state }
{
    let header = pager.header();
    check_freelist(pager, used)?;
    if let Some(n) = find_unused(used, header.pages) {
        return Err(Fault::PageUse(n));
    }
    Ok(())
}
