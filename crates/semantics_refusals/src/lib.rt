//! Which faults a statement has that is refused by its names or its types, and what it is refused for. It
//! promises that these are the ten whose numbers are 31 to 40, so that no such statement is refused as if a
//! page couldn't be read; and of each of them that what the fault says holds somewhere in the statement,
//! however deep, and that a statement of which it holds is no query, but for calls in what a SELECT computes
//! over its groups, and for names of columns where HAVING stands without GROUP BY.
//!
//! It has definitions alone, and `laws` of them.
#![tactic(auto)]

pub mod laws;
