//! An index, compared with the rows of its table. Of a table and an index whose trees were checked it
//! promises to report whether the index has exactly the entries, with the rowid or the rest of the PRIMARY
//! KEY, that the rows require of which its condition is true.
//!
//! Its modules, in order: `index` (an index of a table), `conditions` (the rows that an index keeps), `rows`
//! (a row of a table without rowids), `entries` (the entry that a row requires, and whether the index has
//! it), `searches` (what an index has of a row), `comparison` (all rows against all entries) and `laws`.
mod comparison;
mod conditions;
mod entries;
mod index;
pub mod laws;
mod rows;
mod searches;

pub use comparison::is_index_of;
pub use conditions::is_kept;
pub use entries::has_wanted;
pub use index::TableIndex;
