//! Tokens: what a text is made of.
use crate::Sign;
use crate::keywords::Keyword;

/// How a name is written. (SQLite Keywords)
#[derive(Clone, Copy, Debug, PartialEq, Eq)]
pub enum Quoting {
    /// Without quotes.
    Bare,
    /// `"name"`, where a quote inside is written twice.
    DoubleQuotes,
    /// `[name]`
    Brackets,
    /// In backquotes.
    Backquotes,
}

/// What a token says. What stands between quotes is a slice of the source, as it is written there.
#[derive(Clone, Copy, Debug, PartialEq, Eq)]
pub enum TokenKind<'a> {
    /// Decimal digits, at most 9223372036854775807. (Literal Values)
    Number(i64),
    /// What stands between single quotes; a quote inside is written twice. (Literal Values)
    Text(&'a str),
    /// The pairs of hex digits of `x'0aff'`. (Literal Values)
    Blob(&'a str),
    /// A name that is no reserved word, without its quotes. (SQLite Keywords)
    Name(Quoting, &'a str),
    /// A reserved word of the text's grammar. (SQLite Keywords)
    Keyword(Keyword),
    Sign(Sign),
}

/// A token where it stands.
#[derive(Clone, Copy, Debug, PartialEq, Eq)]
pub struct Token<'a> {
    /// How many bytes of the source are before it.
    pub place: usize,
    /// As it stands in the source, with its quotes.
    pub text: &'a str,
    pub kind: TokenKind<'a>,
}
