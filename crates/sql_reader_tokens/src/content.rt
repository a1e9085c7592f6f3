//! What is written between quotes, as the value that it means.
ghost use Rattle.std.specs.Prelude.{◌≡◌, ◌<◌, ◌≤◌, ◌++◌, length, false, true, string_bytes, IfOk};
ghost use Rattle.sql_reader_tokens.specs.byte_runs.Bytes as bytes;
ghost use Rattle.sql_reader_tokens.specs.Content.{content_of, is_bare_word, lexeme_of, undoubled, unhex};

use crate::byte_runs::{Class, after_first, run_len};
use crate::{Quoting, TokenKind};
use std::alloc::{AllocError, Global};

impl TokenKind<'_> {
    /// Whether this is an unquoted name that is this word, in letters of either case.
    pub fn is_word(&self, word: &str) -> bool
        ensures { result ≡ is_bare_word (lexeme_of self.now) word.now }
    {
        match self {
            TokenKind::Name(Quoting::Bare, name) => name.eq_ignore_ascii_case(word),
            _ => false,
        }
    }
}

/// What is behind the second of two quotes.
fn after_second(text: &str, quote: u8) -> &str
    requires { quote < 128 }
    ensures rest { undoubled quote true text.now ≡ undoubled quote false result.now }
    ensures within { length result.now ≤ length text.now }
{
    match text.as_bytes() {
        [first, ..] if *first == quote => after_first(text),
        _ => text,
    }
}

/// The front of a text up to its first quote, and what is behind that and the quote that doubles it.
#[tactic(auto, using(crate::proofs::ContentLemmas::no_quote, crate::proofs::ContentLemmas::up_to_quote))]
fn split_doubled(text: &str, quote: u8) -> (&str, &str)
    requires { quote < 128 }
    ensures parts { undoubled quote false text.now ≡ result.0.now ++ undoubled quote false result.1.now }
    ensures shorter { 0 < length text.now → length result.1.now < length text.now }
{
    let len = run_len(text.as_bytes(), Class::Not(quote));
    if len == text.len() {
        return (text, "");
    }
    let (front, behind) = text.split_at(len + 1);
    (front, after_second(behind, quote))
}

/// A text in which each doubled quote stands once.
fn undouble(alloc: Global, inside: &str, quote: u8) -> Result<String, AllocError>
    requires { quote < 128 }
    ensures { IfOk result (λ content. string_bytes content ≡ undoubled quote false inside.now) }
{
    let mut content = String::new(alloc);
    let mut rest = inside;
    while !rest.is_empty() {
        let (front, behind) = split_doubled(rest, quote);
        content.push_str(front)?;
        rest = behind;
    }
    Ok(content)
}

/// The text that stands between single quotes.
pub fn text_content(alloc: Global, inside: &str) -> Result<String, AllocError>
    ensures { IfOk result (λ content. string_bytes content ≡ undoubled 39 false inside.now) }
{
    undouble(alloc, inside, b'\'')
}

/// The name that stands between quotes of one kind, or without quotes.
pub fn name_content(alloc: Global, quoting: Quoting, inside: &str) -> Result<String, AllocError>
    ensures { IfOk result (λ content. string_bytes content ≡ content_of quoting inside.now) }
{
    match quoting {
        Quoting::DoubleQuotes => undouble(alloc, inside, b'"'),
        Quoting::Bare | Quoting::Brackets | Quoting::Backquotes => String::from_str(alloc, inside),
    }
}

/// The number that a hex digit is.
fn hex_value(digit: u8) -> u8
    ensures value { result ≡ bytes.hex_value digit }
    ensures small { result < 16 }
{
    match digit {
        b'0'..=b'9' => digit - b'0',
        b'A'..=b'F' => digit - b'A' + 10,
        b'a'..=b'f' => digit - b'a' + 10,
        _ => 0,
    }
}

/// The bytes that pairs of hex digits are.
#[tactic(auto, using(crate::proofs::ContentLemmas::pair_more, crate::proofs::ContentLemmas::pair_end, crate::proofs::ContentLemmas::pair_none))]
pub fn blob_content(alloc: Global, digits: &str) -> Result<Vec<u8>, AllocError>
    ensures { IfOk result (λ bytes. bytes.items ≡ unhex digits.now) }
{
    let digits = digits.as_bytes();
    let mut bytes = Vec::with_capacity(alloc, digits.len() / 2)?;
    let mut at = 1;
    while at < digits.len() {
        bytes.push(16 * hex_value(digits[at - 1]) + hex_value(digits[at]))?;
        at += 2;
    }
    Ok(bytes)
}
