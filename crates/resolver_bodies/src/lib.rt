//! The trees of queries whose names are resolved: SELECTs with their sources, and compounds of them. Of the
//! trees themselves it promises nothing; its definitions say which query of the meaning each is. It promises
//! that a copy of a query, of a source, or of what a SELECT reads is the same tree, and that two queries inside
//! expressions are reported to be the same exactly where they are equal.
//!
//! The modules, in the order in which data passes them: `bodies` (the trees), `statements` (whole queries and
//! statements), `copies` (copies of sources) and `same_bodies` (whether two queries inside expressions are the
//! same).
#![tactic(auto)]

mod bodies;
mod copies;
mod same_bodies;
mod statements;

pub use bodies::{Body, InnerQuery, Joined, Single, Source, Tables};
pub use copies::{copy_body, copy_source, copy_tables};
pub use same_bodies::same_query;
pub use statements::{NamedStatement, Query};
