//! What is known of a source of a join: its rows and pages, and the keys by which it can be searched.
ghost use Rattle.std.specs.Prelude.{◌≡◌, IfOk, map};
ghost use Rattle.index_choice.specs.Sources.{condition_places, index_key, kept_source, key_data, primary_key, rowid_key, source_data, table_source};

use std::alloc::{AllocError, Global};

/// What the check of an image finds of a tree: its rows or entries, its pages, and its levels, of which a root alone is
/// one.
#[derive(Clone, Copy, Debug, PartialEq, Eq)]
pub struct TreeCounts {
    pub entries: u64,
    pub pages: u64,
    pub depth: u64,
}

/// A tree that can be searched: a table's primary key, or an index.
#[derive(Debug, Drop)]
pub struct Key {
    /// Its columns, by their places in the row of FROM.
    pub columns: Vec<usize>,
    /// For each condition of a partial index the places of the conjuncts of which each implies it.
    pub conditions: Vec<Vec<usize>>,
    pub entries: u64,
    /// How many different values its first columns have, for each number of columns from one on.
    pub distinct: Vec<u64>,
    /// The levels of its tree.
    pub depth: u64,
    /// The levels in which the row of an entry is looked up: 0 where the entry is the row.
    pub fetch: u64,
}

/// A source: how many columns it has, its rows, the pages of its tree, and its keys, the primary key and then the indexes
/// as the schema lists them.
#[derive(Debug, Drop)]
pub struct Source {
    pub columns: usize,
    pub rows: u64,
    pub pages: u64,
    pub keys: Vec<Key>,
}

/// The rows that are expected of a source that is computed once and kept.
const KEPT_ROWS: u64 = 100;

impl Key {
    /// The rowid of a table, which has each value once.
    pub fn rowid(alloc: Global, column: usize, table: TreeCounts) -> Result<Key, AllocError>
        ensures { IfOk result (λ key. key_data key ≡ rowid_key column table) }
    {
        let mut columns = Vec::new(alloc);
        columns.push(column)?;
        let mut distinct = Vec::new(alloc);
        distinct.push(table.entries)?;
        Ok(Key::primary(alloc, columns, distinct, table))
    }

    /// The primary key of a table, whose entries are its rows.
    pub fn primary(alloc: Global, columns: Vec<usize>, distinct: Vec<u64>, table: TreeCounts) -> Key
        ensures { key_data result ≡ primary_key columns.items distinct.items table }
    {
        Key {
            columns,
            conditions: Vec::new(alloc),
            entries: table.entries,
            distinct,
            depth: table.depth,
            fetch: 0,
        }
    }

    /// An index of a table, by the columns that it declares.
    pub fn index(
        columns: Vec<usize>,
        conditions: Vec<Vec<usize>>,
        distinct: Vec<u64>,
        index: TreeCounts,
        table: TreeCounts,
    ) -> Key
        ensures { key_data result ≡ index_key columns.items (condition_places conditions.items) distinct.items index table }
    {
        Key {
            columns,
            conditions,
            entries: index.entries,
            distinct,
            depth: index.depth,
            fetch: table.depth,
        }
    }
}

impl Source {
    /// A table with its keys.
    pub fn table(columns: usize, table: TreeCounts, keys: Vec<Key>) -> Source
        ensures { source_data result ≡ table_source columns table (map key_data keys.items) }
    {
        Source {
            columns,
            rows: table.entries,
            pages: table.pages,
            keys,
        }
    }

    /// A derived table or a mention of a WITH item, which is computed once and kept.
    pub fn kept(alloc: Global, columns: usize) -> Source
        ensures { source_data result ≡ kept_source columns }
    {
        Source {
            columns,
            rows: KEPT_ROWS,
            pages: 0,
            keys: Vec::new(alloc),
        }
    }
}
