//! What follows from the definitions alone.
ghost use Rattle.std.specs.Prelude.{ℕ, Bool, List};
ghost use Rattle.values.specs.declared.fault.Fault.{Fault};
ghost use Rattle.btree.specs.image.Pages.{Pages};
ghost use Rattle.integrity_trees.specs.declared.tree_walk.counts.TreeCounts.{TreeCounts};
ghost use Rattle.integrity_trees.specs.declared.index_walk.tree.EntryWidths.{EntryWidths};
ghost use Rattle.integrity_trees.specs.index_walk.Broken.{IsBrokenIndex};
ghost use Rattle.integrity_trees.specs.index_walk.Checked.{HasEntryValues, IsCheckedIndex};

/// No fault has its condition in the tree of an index that was checked.
pub fn no_checked_index_is_broken()
    ensures unbroken { (pages : Pages) (widths : EntryWidths) (descends : List Bool) (root : ℕ) (counts : TreeCounts)
        → IsCheckedIndex pages widths descends root counts → (fault : Fault)
        → IsBrokenIndex pages widths descends root fault → ⊥ }
{}

/// The entries of an index that was checked have values, its pages are in the order of entries that these give, and from left
/// to right each comes before all later ones: what a search of the index stands on. Their keys ascend by themselves. (Database
/// File Format, section 2.3 "Representation Of SQL Indices", and section 2.4 "Representation of WITHOUT ROWID Tables")
pub fn checked_index_has_values()
    ensures values { (pages : Pages) (widths : EntryWidths) (descends : List Bool) (root : ℕ) (counts : TreeCounts)
        → IsCheckedIndex pages widths descends root counts → HasEntryValues pages widths descends root }
{}
