//! Rows put in order, and rows gathered in groups. It promises that what was put in order is a permutation that
//! ascends by ORDER BY, each term ascending or descending with NULLs first or last; that of many rows, or of the
//! different ones among them, those that are kept as they come begin such a permutation of all of them, as far
//! as LIMIT and OFFSET look; that the sequence of a window's partition, and the peer group of each place in it,
//! are exactly those of the definition of windows; that an aggregate has exactly its value over all rows of a
//! group, and that the rows of groups are the bag that GROUP BY gives, for any value substituted for an
//! overflow; and that `Overflow` is returned only where the exact total or count of a group leaves 64 bits or an
//! argument reaches an operation out of range.
//!
//! The modules, in the order in which data passes them: `window_order` (the rows of one partition of a window
//! in their sequence), `order` (rows in order by their own values), `limits` (how many rows are looked at),
//! `first_in_order` (the first rows in order, kept as they come), `distinct_rows` (different rows, and the
//! first of them in order), `aggregates` (the aggregates of groups) and `row_groups` (rows gathered by the
//! values of GROUP BY). What calls over windows reach on rows is defined beside them.
#![tactic(auto)]

mod aggregates;
mod distinct_rows;
mod first_in_order;
mod limits;
mod order;
pub mod row_groups;
mod window_order;

pub use distinct_rows::{DistinctInOrder, rows_of};
pub use first_in_order::{FirstInOrder, LEAST_GATHERED};
pub use limits::rows_looked_at;
pub use order::{ResultKey, compare_rows, sort_rows};
pub use row_groups::{GroupTerms, Groups};
pub use window_order::{Entry, Sequence, compare_by, compare_keys_from, peer_groups, sort};
