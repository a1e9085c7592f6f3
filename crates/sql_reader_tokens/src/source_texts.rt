//! The source texts of phrases. It promises that each is the text from the phrase's first token to its last.
ghost use Rattle.std.specs.Prelude.{◌≡◌, Some};
ghost use Rattle.sql_reader_tokens.specs.source_texts.Sources.{AreCut, reach, source_of};
ghost use Rattle.sql_reader_tokens.specs.Content.{placed_of};
ghost use Rattle.sql_reader_tokens.specs.Tokens.{StandsIn};

use crate::Token;

/// The text from the beginning of one token to the end of another.
#[tactic(auto, using(crate::proofs::lemmas::source_texts::SourceLemmas::cut_front))]
fn between<'t>(text: &'t str, first: &Token<'_>, last: &Token<'_>) -> &'t str
    requires first { StandsIn text.now (placed_of first.now) }
    requires last { StandsIn text.now (placed_of last.now) }
    ensures { result.now ≡ reach text.now (Some (placed_of first.now)) (Some (placed_of last.now)) }
{
    let (front, _) = text.split_at(last.place + last.text.len());
    match front.split_at_checked(first.place) {
        Some((_, source)) => source,
        None => "",
    }
}

/// The source text of a phrase, at whose beginning so many of the text's tokens are left, and so many behind it.
#[tactic(auto, using(crate::proofs::lemmas::source_texts::SourceLemmas::reach_at, crate::proofs::lemmas::source_texts::SourceLemmas::no_first, crate::proofs::lemmas::source_texts::SourceLemmas::no_last, crate::proofs::lemmas::source_texts::SourceLemmas::stands_at))]
pub fn source_text<'t>(text: &'t str, tokens: &[Token<'_>], left: usize, behind: usize) -> &'t str
    requires { AreCut text.now tokens.now }
    ensures { result.now ≡ source_of text.now tokens.now left behind }
{
    let count = tokens.len();
    let Some(first) = tokens.get(count.saturating_sub(left)) else {
        return "";
    };
    let Some(last) = tokens.get(count.saturating_sub(behind).saturating_sub(1)) else {
        return "";
    };
    between(text, first, last)
}
