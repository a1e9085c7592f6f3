//! Definitions: the query that a statement is, by its names and types, and what holds of them. A column name
//! means the one column that is called so among those that FROM shows; an expression is a term over these, or
//! over groups and windows, by its place in the SELECT; and the query of the terms is typed as `semantics`
//! says. It promises that a statement is one query at most, and none where it is refused.
//!
//! The one module is `laws`.
#![tactic(auto)]

pub mod laws;
