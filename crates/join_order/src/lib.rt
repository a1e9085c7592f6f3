//! The order in which the sources of a join are opened. It promises that `least_order` gives an order of the
//! sources, that no order of them has fewer cross products, and that none with as few costs less; of those that
//! cost the same it is the first by the positions as written. What a source costs after others is what its best
//! path costs. A source makes a cross product if it is scanned after more than one row and no equality ties it to
//! those placed: of a column of its own and a value that names columns of placed sources alone. In every order a
//! join gives the same rows.
//!
//! The modules, in the order in which data passes them: `price` (what one source costs after others),
//! `joined` (the prices of tables), `sums` (what a beginning of an order costs), `search` (the least order),
//! and `laws`.
#![tactic(auto)]

mod joined;
pub mod laws;
mod price;
mod search;
mod sums;

pub use joined::{Joined, path_after};
pub use price::{Price, Pricing};
pub use search::{Order, least_order};
