//! What the sources of a statement are called as it is written: what the text of a plan needs beside the plan. It
//! promises that the labels have the shape of the statement, those of each SELECT its sources and the queries
//! inside its expressions in their order, at any depth; and that a mention of an item of WITH is told from a
//! table, by the place of the item that it names.
//!
//! The modules, in the order in which data passes them: `labels` (the trees), `names` (what a source is called,
//! and what is inside a SELECT), `selects` (SELECTs in one another), `statements`, and `laws`.
#![tactic(auto)]

mod labels;
pub mod laws;
mod names;
mod selects;
mod statements;

pub use labels::{ItemLabels, QueryLabels, SelectLabels, SourceLabel, StatementLabels};
pub use statements::statement_labels;
