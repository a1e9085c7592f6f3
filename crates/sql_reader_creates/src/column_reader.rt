//! The reader of the columns of CREATE TABLEs, and of the phrases that their other parts share with these. It
//! promises that each function finds exactly what its phrase of the grammar says is at the front of the
//! tokens, and answers a syntax error only where there is no such phrase.
//!
//! Its clauses speak of the reader that goes from left to right, which the lemmas tie to the grammar; a
//! syntax error's place is tested and not proved. What the grammar doesn't rule out is left to the schema: a
//! column may have any type, or none, and a constraint may be written twice. Of a size after a type, of
//! CHECK, of a DEFAULT in parentheses and of REFERENCES the tree keeps only that they are there.
//!
//! Its modules, in order: `columns`, `types`, `constraints` (of a column), `references` (what follows
//! REFERENCES), and `bodies` (parentheses whose inside isn't kept).
mod bodies;
mod columns;
mod constraints;
mod references;
mod types;

pub use bodies::body;
pub use columns::column;
pub use constraints::{after_title, key_order};
pub use references::{after_reference, names};
