//! What a query means: which lists of rows answer it over the rows of the tables, which types its values
//! have, and which overflows it can reach. It promises that every query has an answer; that tables are bags
//! (the order of their rows changes no answer); that the values of an answer have the query's types; that
//! whatever has no value on a row that is really there is among what the query is said to reach; and what may
//! be rewritten: where conditions may be tested, and in which order inner joins may be made.
//!
//! It has definitions alone, which docs/DEFINITIONS.md lists in the order of processing, and `laws` of them.
#![tactic(auto)]

pub mod laws;
