//! Tests of expressions by the public calls of their crates, as tables of rows that come from what SQLite
//! itself answers.
//!
//! Its one module is `expressions`.
#[cfg(test)]
mod expressions;
