//! The tokens of SQL texts. It promises that, unless memory runs out, `read_tokens` answers Ok exactly where
//! a text is spelt as tokens, with that list and the place of each; that a refusal names the place at which
//! the text stops being spelt; that a text is spelt as at most one list; that a word is reported as a keyword
//! of a grammar exactly where the grammar reserves it; and that the source text of a phrase goes from its
//! first token to its last. What a token is follows SQLite's documents, with fewer forms: numbers are whole,
//! a name may be in double quotes, brackets or backquotes, and a comment has to be closed.
//!
//! The modules, in the order in which data passes them: `byte_runs` (runs of bytes at the front of a text),
//! `keywords` (the reserved words), `reading` (all tokens of a text), `blank` (spaces and comments), `lexer`
//! (the token at the front), `sign` (operators and punctuation), `token` (what is handed out), `content` (the
//! value of what is written between quotes), `laws`, and `source_texts` (the source texts of phrases).
#![tactic(auto)]

mod blank;
mod byte_runs;
mod content;
mod keywords;
pub mod laws;
mod lexer;
mod reading;
mod sign;
mod source_texts;
mod token;

pub use content::{blob_content, name_content, text_content};
pub use keywords::{Grammar, Keyword};
pub use reading::read_tokens;
pub use sign::Sign;
pub use source_texts::source_text;
pub use token::{Quoting, Token, TokenKind};
