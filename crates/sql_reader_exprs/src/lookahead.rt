//! Lookahead: what is at the front of the tokens of a statement, by which its readers choose their steps. It
//! promises that each function finds exactly what is there, as the grammar's reader does.
//!
//! Its modules: `levels` (how tightly operators bind), `expression_fronts` (what an expression begins and
//! goes on with) and `query_fronts` (the words of queries).
mod expression_fronts;
mod levels;
mod query_fronts;

pub use expression_fronts::{
    Following, Inside, Joint, Literal, Membership, Opening, alone, binds, following_at, inside_at,
    joint_at, loosely, membership_at, opening_at,
};
pub use levels::{COMPARISON_LEVEL, OR_LEVEL, level_of, level_of_prefix};
pub use query_fronts::{
    Beginning, Joining, Wants, after_group_by, after_order_by, after_partition_by, beginning_at,
    compound_at, exclusion_at, explained_at, join_at, nulls_at, quantifier_at, turn_at, unit_at,
};
