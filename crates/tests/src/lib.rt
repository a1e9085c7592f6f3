//! Tests of the lower crates by their public calls, as tables of rows that come from SQLite's documents or
//! from what SQLite itself answers. They are separate from the crates that they test, so that none of these
//! is proved a second time for them. There is no other code here.
//!
//! The modules, in the order in which data passes them: `value_tests` (of values and sinks), `storage_tests`
//! (of the crates of storage), `expression_tests` (of expressions) and `plan_tests` (of what plans cost).
#![tactic(auto)]

mod expression_tests;
mod plan_tests;
mod storage_tests;
mod value_tests;
