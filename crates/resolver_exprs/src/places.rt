//! The places of a SELECT at which an expression may be. It promises that each says of a part of an
//! expression exactly what the definition of name resolution says there, and that each aggregate among the
//! parts of expressions is found once, where it is first.
//!
//! Its modules, in order: `columns` (WHERE, ON, GROUP BY and the arguments of aggregates, where a column of
//! FROM is its position), `aggregates` (the aggregate that a part is), `listed` (the position of one in a
//! list), `mentions` (all of a SELECT) and `groups` (what is computed over groups).
mod aggregates;
mod columns;
mod groups;
mod listed;
mod mentions;

pub use aggregates::{aggregate, aggregate_call, count_rows};
pub use columns::Columns;
pub use groups::Groups;
pub use listed::{aggregate_place, term_place};
pub use mentions::first_aggregates;
