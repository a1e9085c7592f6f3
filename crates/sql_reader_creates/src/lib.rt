//! The reader of CREATE texts. It promises that, unless memory runs out, `read_create` answers Ok exactly
//! where a text spells a CREATE TABLE within the limits, with that tree, and `read_create_index` the same of
//! a CREATE INDEX; that a syntax error is returned only where none is spelt; and that a text spells at most
//! one tree of each. A syntax error's place, where the text stops being tokens or else where the reader
//! stopped, is tested and not proved. What the grammar doesn't rule out is left to the schema: an option or a
//! constraint may be written twice, and PRIMARY KEY at several places. Of CHECK, of a DEFAULT in parentheses
//! and of REFERENCES the tree keeps only that they are there; the condition of an index is kept as an
//! expression, read over the words that CREATE texts reserve.
//!
//! The modules, in the order in which data passes them: `column_reader` (the columns of CREATE TABLEs, and
//! the phrases that their other parts share with these), `create` (CREATE TABLE), `index` (CREATE INDEX),
//! `definitions` (columns and constraints), `constraints` (of a table), `keys` (the columns of a key),
//! `conditions` (of partial indexes), `options` (what follows the definitions), and `laws`.
#![tactic(auto)]

mod column_reader;
mod conditions;
mod constraints;
mod create;
mod definitions;
mod index;
mod keys;
pub mod laws;
mod options;

pub use create::read_create;
pub use index::read_create_index;
