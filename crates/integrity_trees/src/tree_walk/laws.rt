//! What follows from the definitions alone.
ghost use Rattle.std.specs.Prelude.{◌<◌, ℕ, Bool, List};
ghost use Rattle.values.specs.declared.fault.Fault.{Fault};
ghost use Rattle.btree.specs.declared.image.kind.TreeKind.{TreeKind};
ghost use Rattle.btree.specs.image.Pages.{IsNumber, Pages};
ghost use Rattle.btree.specs.image.Shape.{HasShape, most_levels};
ghost use Rattle.btree.specs.image.Sound.{IsSoundTree};
ghost use Rattle.btree.specs.image.Use.{TreeData};
ghost use Rattle.integrity_trees.specs.tree_walk.Used.{IsTreeTwice, IsUnderTwice, MarksTree, MarksUnder};

/// A tree of either kind that has a shape of fewer than 20 levels is sound: no page of it is broken. (Database File Format,
/// section 1.6 "B-tree Pages")
pub fn shape_is_sound()
    ensures sound { (pages : Pages) (kind : TreeKind) (levels root : ℕ) → levels < most_levels → HasShape pages kind levels root
        → IsSoundTree pages kind root }
{}

/// Where all that the root's page and those below it tell gets its marks, the tree does; and what is used twice there is used
/// twice by the tree.
pub fn marks_of_tree()
    ensures marks { (pages : Pages) (tree : TreeData) (old new : List Bool) (levels : ℕ) → IsNumber pages tree.root
        → HasShape pages tree.kind levels tree.root → MarksUnder pages tree levels tree.root old new → MarksTree pages tree old new }
    ensures twice { (pages : Pages) (tree : TreeData) (old : List Bool) (fault : Fault) → IsNumber pages tree.root
        → IsUnderTwice pages tree tree.root old fault → IsTreeTwice pages tree old fault }
{}
