//! What a reader returns: a phrase, and the tokens after it.
use sql_reader_tokens::Token;

/// A phrase that was read, how many levels it has, and the tokens after it.
#[derive(Drop)]
pub struct Read<'t, T> {
    pub tree: T,
    pub levels: usize,
    pub rest: &'t [Token<'t>],
}
