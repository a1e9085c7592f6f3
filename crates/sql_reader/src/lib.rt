//! The reader of statement texts. It promises that, unless memory runs out, `read_select` answers Ok exactly
//! where a text spells a statement within the limits, with that tree; that a syntax error is returned only
//! where none is spelt, and the limit fault only where a limit is passed; that a text spells at most one
//! tree; and that the reader of each part reads exactly what the grammar's reader does. A syntax error's
//! place, where the text stops being tokens or else where the reader stopped, is not proved.
//!
//! The modules, in the order in which data passes them: `source_reader` (what follows FROM: sources, and how
//! they are joined), `query_reader` (a SELECT, and a query), `statement_reader` (a whole statement, over what
//! reads the queries and expressions in it), `nested_reader` (expressions, SELECTs and queries in one
//! another, at any depth), `statement_limits` (the limits that a statement's tree is tested for),
//! `statements` (the reader of a text) and `laws`.
#![tactic(auto)]

pub mod laws;
mod nested_reader;
mod query_reader;
mod source_reader;
mod statement_limits;
mod statement_reader;
mod statements;

pub use nested_reader::{MAX_LEVELS, Source, expression_within};
pub use statements::read_select;
