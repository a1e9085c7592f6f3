//! Marks for pages that are used.
ghost use Rattle.std.specs.Prelude.{◌≡◌, ◌<◌, ◌≤◌, ℕ, true, false, [], ◌∷◌, ◌++◌, IfErr, IfNone, IfSome, IsFalse, IsTrue, List, OnErr, OnOk, length, slice_set};
ghost use Rattle.btree.specs.image.Pages.{Pages};
ghost use Rattle.btree.specs.image.Use.{Use, Users};
ghost use Rattle.btree.specs.page_use.Marks.{AreTreeMarks, IsNewPlace, IsUsedTwice, is_marked};

use values::Fault;

/// Gives page `n` its mark; `false` where it has one.
pub(crate) fn mark(used: &mut [bool], n: u32) -> bool
    requires { n < length used.old }
    ensures new { IsTrue result → is_marked used.old n ≡ false }
    ensures marked { IsTrue result → used.new ≡ slice_set used.old n true }
    ensures twice { IsFalse result → is_marked used.old n ≡ true }
    ensures same { IsFalse result → used.new ≡ used.old }
{
    let index = n as usize;
    if used[index] {
        return false;
    }
    used[index] = true;
    true
}

/// Gives page `m`, which a place of a tree or of a chain names, its mark.
///
/// # Errors
///
/// `PageUse` where it has one: another place names it too.
pub fn use_page(used: &mut [bool], m: u32) -> Result<(), Fault>
    requires { m < length used.old }
    ensures blank { OnOk result (is_marked used.old m ≡ false) }
    ensures marks { OnOk result ((pages : Pages) (users : Users) (done : List Use) (place : Use) → AreTreeMarks pages users done used.old
        → IsNewPlace pages users done place m → AreTreeMarks pages users (done ++ place ∷ []) used.new) }
    ensures fault { IfErr result (λ e. e ≡ Fault.PageUse m) }
    ensures twice { OnErr result ((pages : Pages) (users : Users) (done : List Use) (place : Use) → AreTreeMarks pages users done used.old
        → IsNewPlace pages users done place m → IsUsedTwice pages users m) }
{
    if !mark(used, m) {
        return Err(Fault::PageUse(m));
    }
    Ok(())
}

/// The first of so many pages that has no mark.
pub(crate) fn find_unused(used: &[bool], pages: u32) -> Option<u32>
    requires { pages < length used.now }
    ensures found { IfSome result (λ n. (1 ≤ n) × (n ≤ pages) × (is_marked used.now n ≡ false)) }
    ensures none { IfNone result ((n : ℕ) → 1 ≤ n → n ≤ pages → is_marked used.now n ≡ true) }
{
    for i in 0..pages {
        if !used[i as usize + 1] {
            return Some(i + 1);
        }
    }
    None
}
