//! Tokens.
use sql_reader_tokens::{Quoting, Token, TokenKind};
use std::alloc::AllocError;

/// Writes what a token says.
fn write_kind(kind: TokenKind<'_>, out: &mut String) -> Result<(), AllocError> {
    match kind {
        TokenKind::Number(number) => write!(out, "{number}"),
        TokenKind::Text(text) => write!(out, "text {text:?}"),
        TokenKind::Blob(digits) => write!(out, "blob {digits:?}"),
        TokenKind::Name(Quoting::Bare, name) => write!(out, "name {name:?}"),
        TokenKind::Name(quoting, name) => write!(out, "name {name:?} in {quoting:?}"),
        TokenKind::Keyword(keyword) => out.push_str(keyword.as_str()),
        TokenKind::Sign(sign) => out.push_str(sign.as_str()),
    }
}

/// Writes tokens with bars between them, each after its place.
pub fn write_tokens(tokens: &[Token<'_>], out: &mut String) -> Result<(), AllocError> {
    for token in tokens {
        if !out.is_empty() {
            out.push_str(" | ")?;
        }
        write!(out, "{}: ", token.place)?;
        write_kind(token.kind, out)?;
    }
    Ok(())
}
