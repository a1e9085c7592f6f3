//! The token at the front of a text.
ghost use Rattle.std.specs.Prelude.{◌≡◌, ◌<◌, ◌^◌, not, false, pos, nat_lt, if◌then◌else◌, option_map, Some, None};
ghost use Rattle.sql_reader_tokens.specs.byte_runs.Bytes as bytes;
ghost use Rattle.sql_reader_tokens.specs.byte_runs.Runs as runs;
ghost use Rattle.sql_reader_tokens.specs.Content.{lexeme_of};
ghost use Rattle.sql_reader_tokens.specs.Reading as spec;
ghost use Rattle.sql_reader_tokens.specs.Reading.{behind, sign_of};

use crate::byte_runs::{Class, after_first, begins_word, quoted_len, run_len, split_before};
use crate::keywords::Grammar;
use crate::sign::sign_at_front;
use crate::{Quoting, Sign, TokenKind};

/// The number that digits are, unless it leaves 63 bits.
#[tactic(auto, using(crate::proofs::NumberLemmas::too_large))]
fn decimal(digits: &[u8]) -> Option<i64>
    ensures { result ≡ (if nat_lt (bytes.decimal digits.now) (2 ^ 63) then Some (pos (bytes.decimal digits.now)) else None) }
{
    let mut number: u128 = 0;
    for digit in digits {
        number = 10 * number + u128::from(digit.saturating_sub(b'0'));
        if number >= 1 << 63 {
            return None;
        }
    }
    Some(number as i64)
}

/// Whether a number would go on.
fn joins_number(text: &[u8]) -> bool
    ensures { result ≡ not (spec.stops bytes.joins_number text.now) }
{
    match text {
        [first, ..] => begins_word(*first) || first.is_ascii_digit() || *first == b'.',
        [] => false,
    }
}

/// A number, where a digit stands.
fn number(text: &str) -> Option<(TokenKind<'_>, &str)>
    ensures { option_map (λ r. (lexeme_of r.0, r.1.now)) result ≡ spec.number (runs.run_of bytes.is_digit text.now) }
{
    let len = run_len(text.as_bytes(), Class::Digit);
    let (digits, behind) = text.as_bytes().split_at(len);
    if joins_number(behind) {
        return None;
    }
    let number = decimal(digits)?;
    let (_, after) = split_before(text, len);
    Some((TokenKind::Number(number), after))
}

/// A reserved word or a name without quotes, where one begins.
fn word(grammar: Grammar, text: &str) -> (TokenKind<'_>, &str)
    ensures { Some (lexeme_of result.0, result.1.now) ≡ spec.word grammar (runs.run_of bytes.is_in_word text.now) }
{
    let len = run_len(text.as_bytes(), Class::Word);
    let (word, after) = split_before(text, len);
    match grammar.keyword(word) {
        Some(keyword) => (TokenKind::Keyword(keyword), after),
        None => (TokenKind::Name(Quoting::Bare, word), after),
    }
}

/// What stands before the closing quote, and what is behind it.
#[tactic(auto, using(crate::proofs::CommentLemmas::behind))]
fn split_quoted(text: &str, quote: u8) -> Option<(&str, &str)>
    requires { quote < 128 }
    ensures { option_map (λ r. (r.0.now, r.1.now)) result ≡ runs.quoted quote false text.now }
{
    let len = quoted_len(text.as_bytes(), quote)?;
    let (inside, rest) = split_before(text, len);
    Some((inside, after_first(rest)))
}

/// What stands before the first byte like this, and what is behind it.
fn split_closed(text: &str, closing: u8) -> Option<(&str, &str)>
    requires { closing < 128 }
    ensures { option_map (λ r. (r.0.now, r.1.now)) result ≡ spec.closed (runs.run_of (bytes.is_not closing) text.now) }
{
    let len = run_len(text.as_bytes(), Class::Not(closing));
    if len == text.len() {
        return None;
    }
    let (inside, rest) = split_before(text, len);
    Some((inside, after_first(rest)))
}

/// A name in quotes, which isn't empty.
fn name<'a>(quoting: Quoting, split: Option<(&'a str, &'a str)>) -> Option<(TokenKind<'a>, &'a str)>
    ensures { option_map (λ r. (lexeme_of r.0, r.1.now)) result ≡ spec.name quoting (option_map (λ r. (r.0.now, r.1.now)) split.entry) }
{
    let (inside, after) = split?;
    if inside.is_empty() {
        return None;
    }
    Some((TokenKind::Name(quoting, inside), after))
}

/// A text in quotes.
fn text<'a>(split: Option<(&'a str, &'a str)>) -> Option<(TokenKind<'a>, &'a str)>
    ensures { option_map (λ r. (lexeme_of r.0, r.1.now)) result ≡ spec.text (option_map (λ r. (r.0.now, r.1.now)) split.entry) }
{
    let (inside, after) = split?;
    Some((TokenKind::Text(inside), after))
}

/// The pairs of hex digits up to a closing quote.
fn blob(text: &str) -> Option<(TokenKind<'_>, &str)>
    ensures { option_map (λ r. (lexeme_of r.0, r.1.now)) result ≡ spec.blob (runs.run_of bytes.is_hex_digit text.now) }
{
    let len = run_len(text.as_bytes(), Class::HexDigit);
    match text.as_bytes().split_at(len).1 {
        [b'\'', b'\'', ..] => None,
        [b'\'', ..] if len % 2 == 0 => {
            let (digits, rest) = split_before(text, len);
            Some((TokenKind::Blob(digits), after_first(rest)))
        }
        _ => None,
    }
}

/// What is behind a sign.
#[tactic(auto, using(crate::proofs::SignLemmas::first_byte, crate::proofs::SignLemmas::second_byte))]
fn after_sign(sign: Sign, text: &str) -> &str
    requires { sign_of text.now ≡ Some sign }
    ensures { result.now ≡ behind sign (spec.tail text.now) }
{
    let after = after_first(text);
    if sign.is_long() {
        after_first(after)
    } else {
        after
    }
}

/// The token at the front, and what is behind it.
#[tactic(auto, unfolding(crate::specs::Reading::token))]
pub(crate) fn token_at_front<'a>(
    grammar: Grammar,
    source: &'a str,
) -> Option<(TokenKind<'a>, &'a str)>
    ensures { option_map (λ r. (lexeme_of r.0, r.1.now)) result ≡ spec.token grammar source.now }
{
    match source.as_bytes() {
        [b'x' | b'X', b'\'', ..] => blob(after_first(after_first(source))),
        [first, ..] if begins_word(*first) => Some(word(grammar, source)),
        [b'0'..=b'9', ..] => number(source),
        [b'\'', ..] => text(split_quoted(after_first(source), b'\'')),
        [b'"', ..] => name(
            Quoting::DoubleQuotes,
            split_quoted(after_first(source), b'"'),
        ),
        [b'[', ..] => name(Quoting::Brackets, split_closed(after_first(source), b']')),
        [b'`', ..] => name(Quoting::Backquotes, split_closed(after_first(source), b'`')),
        [first, rest @ ..] => {
            let sign = sign_at_front(*first, rest)?;
            Some((TokenKind::Sign(sign), after_sign(sign, source)))
        }
        [] => None,
    }
}
