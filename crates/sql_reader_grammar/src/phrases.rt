//! What the readers of SQL texts share: steps over tokens, the definitions of phrases that are lists and of
//! what a text spells, and the limits. It promises that each step finds exactly what is at the front of the
//! tokens. A syntax error's place is tested and not proved.
//!
//! Its modules: `steps` and `limits`.
mod limits;
mod steps;

pub use limits::{MAX_COLUMNS, MAX_TEXT};
pub use steps::{
    after_keyword, after_semicolon, after_sign, after_word, ends, name, needed, needed_name,
    place_of, syntax_at,
};
