//! A text and its tokens.

use sql_reader_tokens::Token;
use std::alloc::Global;

/// A text, its tokens, and where the memory for trees comes from.
#[derive(Clone, Copy)]
pub struct Source<'t> {
    pub alloc: Global,
    pub text: &'t str,
    pub tokens: &'t [Token<'t>],
}
