//! Whether two aggregates, or two calls over windows are the same. It promises that they are reported to be
//! the same exactly where they are equal, as the column of an aggregate is found again by the aggregate.
//!
//! Its modules: `aggregates` and `calls` (over windows).
mod aggregates;
mod calls;

pub use aggregates::same_aggregate;
pub use calls::same_call;
