//! Tests of values and sinks by the public calls of their crates, as tables of rows that come from SQLite's
//! documents or from what SQLite itself answers.
//!
//! Its modules: `literals` (values as text, and their order), `writing` (where text is written to) and
//! `lines` (rows as text).
#[cfg(test)]
mod lines;
#[cfg(test)]
mod literals;
#[cfg(test)]
mod writing;
