//! The trees of SELECTs whose names are resolved, without their sources: what is made of a statement, and what
//! its plans compute. An expression in them may take the members of an IN from an inner query, which it names
//! by its position. Of the trees themselves it promises nothing; `Gives` of its definitions is what calls that
//! make them promise. It promises that a copy is the same tree, or the tree with other leaves in the
//! expressions, and that two aggregates or calls over windows are reported to be the same exactly where they
//! are equal.
//!
//! The modules, in the order in which data passes them: `selects` (what a SELECT computes after its FROM),
//! `copies` (copies of it) and `same_terms` (whether two aggregates, or two calls over windows are the same).
#![tactic(auto)]

mod copies;
mod same_terms;
mod selects;

pub use copies::{
    copy_aggregates, copy_calls, copy_grouping, copy_order, copy_select, copy_window, order_with,
    select_with,
};
pub use same_terms::{same_aggregate, same_call};
pub use selects::{
    Aggregate, AggregateFunction, Edge, Frame, Grouping, Key, KeyTerm, Select, SortTerm, Window,
    WindowCall, WindowFunction,
};
