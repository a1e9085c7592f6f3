//! What follows from the definitions alone.
ghost use Rattle.std.specs.Prelude.{ℕ};
ghost use Rattle.values.specs.declared.fault.Fault.{Fault};
ghost use Rattle.btree.specs.image.Freelist.{IsFreelist};
ghost use Rattle.btree.specs.image.Pages.{Pages, IsNumber};
ghost use Rattle.btree.specs.image.Use.{IsBrokenUse, IsUsedOnce, Users};
ghost use Rattle.btree.specs.page_use.Marks.{IsUsedTwice};

/// No fault has its condition on the use of pages where the freelist is one and each page is used once.
pub fn no_use_is_broken()
    ensures unbroken { (pages : Pages) (users : Users) (total : ℕ) → IsFreelist pages users.first total
        → ((n : ℕ) → IsNumber pages n → IsUsedOnce pages users n) → (fault : Fault) → IsBrokenUse pages users total fault → ⊥ }
{}

/// A page that two places name is a page of the image, and isn't used once.
pub fn twice_is_not_once()
    ensures number { (pages : Pages) (users : Users) (n : ℕ) → IsUsedTwice pages users n → IsNumber pages n }
    ensures not_once { (pages : Pages) (users : Users) (n : ℕ) → IsUsedTwice pages users n → ¬ IsUsedOnce pages users n }
{}
