//! Steps over tokens.
ghost use Rattle.std.specs.Prelude.{◌≡◌, ◌<◌, length, option_map, string_bytes, IfOk, IfSome};
ghost use Rattle.sql_reader_grammar.specs.phrases.Outcomes as outcomes;
ghost use Rattle.sql_reader_grammar.specs.phrases.Outcomes.{Yields};
ghost use Rattle.sql_reader_grammar.specs.phrases.Steps as spec;
ghost use Rattle.sql_reader_grammar.specs.phrases.Steps.{HasFound, IsSyntax};
ghost use Rattle.sql_reader_grammar.specs.phrases.Texts.{first_place, lexemes_of};

use sql_reader_tokens::{Keyword, Sign, Token, TokenKind, name_content};
use std::alloc::Global;
use values::Fault;

/// What is behind this keyword, if it stands at the front.
pub fn after_keyword<'t>(tokens: &'t [Token<'t>], keyword: Keyword) -> Option<&'t [Token<'t>]>
    ensures found { option_map (λ r. lexemes_of r.now) result ≡ spec.after_keyword keyword (lexemes_of tokens.now) }
    ensures shorter { IfSome result (λ r. length r.now < length tokens.now) }
{
    let [first, rest @ ..] = tokens else {
        return None;
    };
    match first.kind {
        TokenKind::Keyword(word) if word == keyword => Some(rest),
        _ => None,
    }
}

/// What is behind this sign, if it stands at the front.
pub fn after_sign<'t>(tokens: &'t [Token<'t>], sign: Sign) -> Option<&'t [Token<'t>]>
    ensures found { option_map (λ r. lexemes_of r.now) result ≡ spec.after_sign sign (lexemes_of tokens.now) }
    ensures shorter { IfSome result (λ r. length r.now < length tokens.now) }
{
    let [first, rest @ ..] = tokens else {
        return None;
    };
    match first.kind {
        TokenKind::Sign(other) if other == sign => Some(rest),
        _ => None,
    }
}

/// What is behind this word, if it stands at the front, unquoted and in letters of either case.
pub fn after_word<'t>(tokens: &'t [Token<'t>], word: &str) -> Option<&'t [Token<'t>]>
    ensures found { option_map (λ r. lexemes_of r.now) result ≡ spec.after_word word.now (lexemes_of tokens.now) }
    ensures shorter { IfSome result (λ r. length r.now < length tokens.now) }
{
    match tokens {
        [first, rest @ ..] if first.kind.is_word(word) => Some(rest),
        _ => None,
    }
}

/// Whether a statement ends here, with a semicolon or without.
pub fn ends(tokens: &[Token<'_>]) -> bool
    ensures { result ≡ spec.ends (lexemes_of tokens.now) }
{
    matches!(
        tokens,
        [] | [Token {
            kind: TokenKind::Sign(Sign::Semicolon),
            ..
        }]
    )
}

/// What is behind a semicolon, if one stands at the front, and else all of it.
pub fn after_semicolon<'t>(tokens: &'t [Token<'t>]) -> &'t [Token<'t>]
    ensures { lexemes_of result.now ≡ spec.behind_semicolon (lexemes_of tokens.now) }
{
    match tokens {
        [
            Token {
                kind: TokenKind::Sign(Sign::Semicolon),
                ..
            },
            rest @ ..,
        ] => rest,
        _ => tokens,
    }
}

/// Where the first token stands, or the end of the text.
pub fn place_of(tokens: &[Token<'_>], end: usize) -> usize
    ensures { result ≡ first_place end tokens.now }
{
    match tokens {
        [first, ..] => first.place,
        [] => end,
    }
}

/// The fault of a text that can't go on with these tokens: its place is that of the first, or the end of the text.
pub fn syntax_at(tokens: &[Token<'_>], end: usize) -> Fault
    ensures { IsSyntax result }
{
    Fault::Syntax(place_of(tokens, end))
}

/// What was found, which these tokens have to begin with; else `Syntax`.
pub fn needed<'t>(
    found: Option<&'t [Token<'t>]>,
    tokens: &'t [Token<'t>],
    end: usize,
) -> Result<&'t [Token<'t>], Fault>
    ensures { Yields (λ r. lexemes_of r.now) result (outcomes.needed (option_map (λ r. lexemes_of r.now) found.entry)) }
{
    match found {
        Some(rest) => Ok(rest),
        None => Err(syntax_at(tokens, end)),
    }
}

/// The name at the front, and what is behind it.
pub fn name<'t>(
    alloc: Global,
    tokens: &'t [Token<'t>],
    end: usize,
) -> Result<(String, &'t [Token<'t>]), Fault>
    ensures value { HasFound (λ r. (string_bytes r.0, lexemes_of r.1.now)) result (spec.name (lexemes_of tokens.now)) }
    ensures shorter { IfOk result (λ r. length r.1.now < length tokens.now) }
{
    let [first, rest @ ..] = tokens else {
        return Err(Fault::Syntax(end));
    };
    match first.kind {
        TokenKind::Name(quoting, inside) => {
            let name = name_content(alloc, quoting, inside)?;
            Ok((name, rest))
        }
        _ => Err(Fault::Syntax(first.place)),
    }
}

/// The same, told as an outcome.
#[tactic(auto, using(crate::proofs::lemmas::phrases::OutcomeLemmas::gives_yields))]
pub fn needed_name<'t>(
    alloc: Global,
    tokens: &'t [Token<'t>],
    end: usize,
) -> Result<(String, &'t [Token<'t>]), Fault>
    ensures value { Yields (λ r. (string_bytes r.0, lexemes_of r.1.now)) result
        (outcomes.needed (spec.name (lexemes_of tokens.now))) }
    ensures shorter { IfOk result (λ r. length r.1.now < length tokens.now) }
{
    name(alloc, tokens, end)
}
