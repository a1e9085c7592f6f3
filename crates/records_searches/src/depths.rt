//! The levels of pages that a search goes through.
ghost use Rattle.std.specs.Prelude.{◌≡◌};
ghost use Rattle.records_searches.specs.Work.{depths_of};

/// How many levels of pages a search goes through, as the choice of a path counts them.
#[derive(Clone, Copy, Debug, PartialEq, Eq)]
pub struct SearchDepths {
    /// Of the tree that is searched, its root and its leaves included.
    pub depth: u64,
    /// Of the table's tree in which the row of an entry is looked up; 0 where the entry is the row.
    pub fetch: u64,
}

impl SearchDepths {
    /// Those of a tree with this number of levels of pages below its root, and of the tree of its table, where an entry leads to a
    /// row there.
    pub fn of(levels: u32, table_levels: Option<u32>) -> SearchDepths
        ensures { result ≡ depths_of levels table_levels }
    {
        let fetch = match table_levels {
            Some(levels) => u64::from(levels) + 1,
            None => 0,
        };
        SearchDepths {
            depth: u64::from(levels) + 1,
            fetch,
        }
    }
}
