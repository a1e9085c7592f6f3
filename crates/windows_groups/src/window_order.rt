//! The rows of one partition of a window in their sequence: by the values of the window's ORDER BY on them,
//! and then by the whole row. It promises that the sequence is exactly that of the definition of windows, and
//! that each of its places has the number of the peer group that the definition gives it.
//!
//! Its modules, in order: `keys` (rows compared by the values of ORDER BY), `ranks` (numbers that decide most
//! comparisons), `sorting` (the sequence), `peers` (its peer groups) and `placed` (both together).
mod keys;
mod peers;
mod placed;
mod ranks;
mod sorting;

pub use keys::{compare_by, compare_keys, compare_keys_from};
pub use peers::{PeerGroups, peer_groups};
pub use placed::Sequence;
pub use ranks::{Rank, is_number_at, rank_at};
pub use sorting::{Entry, sort};
