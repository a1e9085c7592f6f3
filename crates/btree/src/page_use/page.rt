//! Pages that are read once.
ghost use Rattle.std.specs.Prelude.{◌≡◌, ◌≤◌, IfErr, IfNone, IfOk, IfSome, length, take};
ghost use Rattle.pager.specs.Calls.{IsReadFault, ReadsChainPages};
ghost use Rattle.btree.specs.image.Pages.{IsNumber, WhereSteady, pages_seen};

use pager::{Page, Pager, Source};
use values::Fault;

/// A page that is read once and not kept, if the number is that of a page. Its faults are `ReadFailed` and `NoMemory`.
pub(crate) fn page_once<S: Source>(pager: &mut Pager<S>, number: u32) -> Result<Option<Page>, Fault>
    ensures page { WhereSteady pager.old.state (λ pages. IfOk result (λ found. IfSome found (λ page. take pages.usable page ≡ pages.page number))) }
    ensures number { IfOk result (λ found. IfSome found (λ page. IsNumber (pages_seen pager.old.state) number)) }
    ensures long { IfOk result (λ found. IfSome found (λ page. pager.old.state.header.usable ≤ length page)) }
    ensures none { IfOk result (λ found. IfNone found (¬ IsNumber (pages_seen pager.old.state) number)) }
    ensures fault { IfErr result IsReadFault }
    ensures reads { ReadsChainPages result pager.old.state pager.new.state }
{
    if number < 1 || number > pager.header().pages {
        return Ok(None);
    }
    let page = pager.chain_page(number)?;
    Ok(Some(page))
}
