//! What a tree has.
ghost use Rattle.values.specs.Bounds.{counted};
ghost use Rattle.std.specs.Prelude.{◌≡◌, ◌+◌};

/// What a tree has. Counts stay at the greatest number.
#[derive(Clone, Copy, Debug, PartialEq, Eq)]
pub struct TreeCounts {
    /// How many levels of pages are below its root.
    pub levels: u32,
    /// Its cells: the rows of a table, or the entries of an index.
    pub cells: u64,
    /// Its pages.
    pub pages: u64,
}

/// The counts of a page alone, with so many cells of its tree.
pub fn counts_of_page(cells: u64) -> TreeCounts
    ensures { result ≡ record { levels = 0; cells = cells; pages = 1 } }
{
    TreeCounts {
        levels: 0,
        cells,
        pages: 1,
    }
}

/// The counts of a page with so many of its children, and of one child more.
pub fn join(counts: TreeCounts, below: TreeCounts) -> TreeCounts
    ensures levels { result.levels ≡ below.levels }
    ensures cells { result.cells ≡ counted (counts.cells + below.cells) }
    ensures pages { result.pages ≡ counted (counts.pages + below.pages) }
{
    TreeCounts {
        levels: below.levels,
        cells: counts.cells.saturating_add(below.cells),
        pages: counts.pages.saturating_add(below.pages),
    }
}
