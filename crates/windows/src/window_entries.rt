//! The rows of a partition with the values of a window's ORDER BY on them. It promises that each row has the
//! values of each term on it, for any value substituted for an overflow, and that `Overflow` is returned only
//! where a term reaches an operation out of range.
//!
//! Its one module is `computed`.
mod computed;

pub use computed::{entries, with_keys};
