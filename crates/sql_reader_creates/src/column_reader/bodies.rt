//! Parentheses whose inside isn't kept.
ghost use Rattle.std.specs.Prelude.{◌≡◌, ◌<◌, ◌≤◌, ◌+◌, ◌^◌, IfOk, IfSome, length};
ghost use Rattle.sql_reader_creates.specs.column_reader.ColumnReading as spec;
ghost use Rattle.sql_reader_grammar.specs.phrases.Steps.{HasFound};
ghost use Rattle.sql_reader_grammar.specs.phrases.Texts.{lexemes_of};
ghost use Rattle.sql_reader_tokens.specs.Content.{lexeme_of};

use sql_reader_grammar::{after_sign, syntax_at};
use sql_reader_tokens::{Sign, Token, TokenKind};
use values::Fault;

/// How many parentheses are open behind a token where so many were before it, within the one whose end is looked for;
/// `None` where that one is closed.
fn depth_after(depth: usize, token: &TokenKind<'_>) -> Option<usize>
    requires { depth + 1 < 2 ^ 64 }
    ensures value { result ≡ spec.depth_after depth (lexeme_of token.now) }
    ensures one_more { IfSome result (λ next. next ≤ depth + 1) }
{
    match token {
        TokenKind::Sign(Sign::Open) => Some(depth + 1),
        TokenKind::Sign(Sign::Close) => depth.checked_sub(1),
        _ => Some(depth),
    }
}

/// What is behind the parenthesis that closes the one before these tokens.
pub(crate) fn balanced<'t>(tokens: &'t [Token<'t>], end: usize) -> Result<&'t [Token<'t>], Fault>
    ensures value { HasFound (λ r. lexemes_of r.now) result (spec.balanced 0 (lexemes_of tokens.now)) }
    ensures shorter { IfOk result (λ r. length r.now < length tokens.now) }
{
    let mut depth = 0;
    let mut rest = tokens;
    while !rest.is_empty() {
        let [first, after @ ..] = rest else {
            return Err(Fault::Syntax(end));
        };
        let Some(next) = depth_after(depth, &first.kind) else {
            return Ok(after);
        };
        depth = next;
        rest = after;
    }
    Err(Fault::Syntax(end))
}

/// What is behind the parenthesis at the front.
pub fn body<'t>(tokens: &'t [Token<'t>], end: usize) -> Result<&'t [Token<'t>], Fault>
    ensures value { HasFound (λ r. lexemes_of r.now) result (spec.body (lexemes_of tokens.now)) }
    ensures shorter { IfOk result (λ r. length r.now < length tokens.now) }
{
    match after_sign(tokens, Sign::Open) {
        Some(inside) => balanced(inside, end),
        None => Err(syntax_at(tokens, end)),
    }
}
