//! The tree of an index.
ghost use Rattle.std.specs.Prelude.{◌≡◌, ◌≤◌, ◌↔◌, IsTrue};
ghost use Rattle.integrity_trees.specs.index_walk.Widths as spec;

/// How many values the entries of a tree have.
#[derive(Clone, Copy, Debug)]
pub struct EntryWidths {
    /// The values of the key, in whose order the entries stand. Each entry has these.
    pub key: usize,
    /// The most values that an entry has.
    pub most: usize,
}

impl EntryWidths {
    /// The widths of entries that have so many values each, all of which are their key, as those of an index.
    pub fn exactly(width: usize) -> EntryWidths
        ensures { result ≡ spec.exactly width }
    {
        EntryWidths {
            key: width,
            most: width,
        }
    }

    /// Whether an entry may have so many values.
    pub(crate) fn allow(&self, values: usize) -> bool
        ensures { IsTrue result ↔ ((self.now.key ≤ values) × (values ≤ self.now.most)) }
    {
        self.key <= values && values <= self.most
    }
}

/// The tree of an index, or of a table without rowids.
#[derive(Clone, Copy, Debug)]
pub struct IndexTree<'a> {
    /// The page of its root.
    pub root: u32,
    /// How many values its entries have.
    pub widths: EntryWidths,
    /// Which of its columns descend; further ones ascend.
    pub descends: &'a [bool],
}
