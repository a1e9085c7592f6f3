//! What follows from the definitions alone.
ghost use Rattle.std.specs.Prelude.{ℕ};
ghost use Rattle.btree.specs.image.Pages.{Pages};
ghost use Rattle.integrity_trees.specs.entry_prefixes.Repeats.{HasRepeats, IsUniqueIndex};

/// An index none of whose entries agree has no two that do.
pub fn unique_index_has_no_repeats()
    ensures unique { (pages : Pages) (root columns : ℕ) → IsUniqueIndex pages root columns → ¬ HasRepeats pages root columns }
{}
