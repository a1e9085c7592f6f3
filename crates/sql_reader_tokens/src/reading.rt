//! All tokens of a text.
ghost use Rattle.std.specs.Prelude.{◌≡◌, ◌<◌, ◌≤◌, All, length, map, option_map, IfErr, IfOk, IfSome, Some};
ghost use Rattle.sql_reader_tokens.specs.Content.{lexeme_of, placed_of};
ghost use Rattle.sql_reader_tokens.specs.Reading as spec;
ghost use Rattle.sql_reader_tokens.specs.Tokens.{HasNoTokens, StandsIn, Tokens, between};

use crate::Token;
use crate::blank::skip_blank;
use crate::keywords::Grammar;
use crate::lexer::token_at_front;
use std::alloc::Global;
use values::Fault;

/// The token at the front of the rest of a text, and what is behind it.
#[tactic(auto, using(crate::proofs::LeavesLemmas::token_less, crate::proofs::LeavesLemmas::token_boundary))]
fn placed_token<'a>(grammar: Grammar, len: usize, rest: &'a str) -> Option<(Token<'a>, &'a str)>
    requires { length rest.now ≤ len }
    ensures found { option_map (λ r. (lexeme_of r.0.kind, r.1.now)) result ≡ spec.token grammar rest.now }
    ensures placed { IfSome result (λ r. placed_of r.0 ≡ between len rest.now (lexeme_of r.0.kind) r.1.now) }
    ensures shorter { IfSome result (λ r. length r.1.now < length rest.now) }
{
    let (kind, after) = token_at_front(grammar, rest)?;
    let (text, _) = rest.split_at(rest.len() - after.len());
    let place = len - rest.len();
    Some((Token { place, text, kind }, after))
}

/// The tokens of a text. The fault is `Syntax` with the first place that is neither in a token nor between tokens, or
/// `NoMemory`.
#[tactic(auto, using(crate::proofs::ReadLemmas::blank_step, crate::proofs::ReadLemmas::stops_at, crate::proofs::LeavesLemmas::blank_less, crate::proofs::LeavesLemmas::blank_further))]
pub fn read_tokens<'a>(
    alloc: Global,
    grammar: Grammar,
    text: &'a str,
) -> Result<Vec<Token<'a>>, Fault>
    ensures spelt { IfOk result (λ tokens. Tokens grammar text.now (map placed_of tokens.items)) }
    ensures cut { IfOk result (λ tokens. All (λ t. StandsIn text.now (placed_of t)) tokens.items) }
    ensures refused { IfErr result (λ fault. HasNoTokens grammar text.now fault) }
{
    let mut tokens = Vec::new(alloc);
    let mut rest = text;
    while !rest.is_empty() {
        if let Some(after) = skip_blank(rest) {
            rest = after;
            continue;
        }
        let Some((token, after)) = placed_token(grammar, text.len(), rest) else {
            return Err(Fault::Syntax(text.len() - rest.len()));
        };
        tokens.push(token)?;
        rest = after;
    }
    Ok(tokens)
}
