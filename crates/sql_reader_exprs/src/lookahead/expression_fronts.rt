//! What is at the front of the tokens of an expression.
ghost use Rattle.std.specs.Prelude.{◌≡◌, ◌<◌};
ghost use Rattle.sql_reader_exprs.specs.lookahead.ExpressionFronts.{following_of, inside_of, joint_of, membership_of, opening_of};
ghost use Rattle.sql_reader_grammar.specs.Fronts as spec;
ghost use Rattle.sql_reader_grammar.specs.Reading as reading;
ghost use Rattle.sql_reader_grammar.specs.phrases.Outcomes.{Yields, needed};
ghost use Rattle.sql_reader_grammar.specs.phrases.Texts.{lexemes_of};

use crate::lookahead::levels::{EQUALITY_LEVEL, NO_LEVEL, PART_LEVEL, level_of};
use sql_reader_grammar::place_of;
use sql_reader_syntax::{BinaryOperator, PostfixOperator, PrefixOperator};
use sql_reader_tokens::{Keyword, Quoting, Sign, Token, TokenKind};
use values::Fault;

/// A value as it is written.
#[derive(Clone, Copy)]
pub enum Literal<'t> {
    Null,
    Number(i64),
    Text(&'t str),
    Blob(&'t str),
}

/// What an operand begins with, and what is behind it.
#[derive(Clone, Copy)]
pub enum Opening<'t> {
    Value(Literal<'t>, &'t [Token<'t>]),
    Word(Quoting, &'t str, &'t [Token<'t>]),
    Operator(PrefixOperator, &'t [Token<'t>]),
    Parenthesis(&'t [Token<'t>]),
    Choice(&'t [Token<'t>]),
    /// EXISTS and its parenthesis.
    Existence(&'t [Token<'t>]),
    Nothing,
}

/// What an expression goes on with, and what is behind it.
#[derive(Clone, Copy)]
pub enum Joint<'t> {
    Binary(BinaryOperator, &'t [Token<'t>]),
    /// Whether NOT stands before it.
    Between(bool, &'t [Token<'t>]),
    In(bool, &'t [Token<'t>]),
    Postfix(PostfixOperator, &'t [Token<'t>]),
    /// NOT, with none of the words that may stand behind it.
    Dangling,
    /// What belongs to a name or a call: a parenthesis, a dot, FILTER, OVER.
    Tight,
    Stop,
}

/// What stands behind a name.
#[derive(Clone, Copy)]
pub enum Following<'t> {
    Call(&'t [Token<'t>]),
    Dot(&'t [Token<'t>]),
    Else,
}

/// What stands behind the parenthesis of a call.
#[derive(Clone, Copy)]
pub enum Inside<'t> {
    Closed(&'t [Token<'t>]),
    Star(&'t [Token<'t>]),
    Arguments,
}

/// What stands behind the parenthesis of IN.
#[derive(Clone, Copy)]
pub enum Membership<'t> {
    Empty(&'t [Token<'t>]),
    Query,
    Members,
}

fn opening_sign<'t>(sign: Sign, rest: &'t [Token<'t>]) -> Opening<'t>
    ensures { opening_of result ≡ spec.opening_sign sign (lexemes_of rest.now) }
{
    match sign {
        Sign::Minus => Opening::Operator(PrefixOperator::Minus, rest),
        Sign::Plus => Opening::Operator(PrefixOperator::Plus, rest),
        Sign::Tilde => Opening::Operator(PrefixOperator::BitNot, rest),
        Sign::Open => Opening::Parenthesis(rest),
        _ => Opening::Nothing,
    }
}

fn opening_exists<'t>(tokens: &'t [Token<'t>]) -> Opening<'t>
    ensures { opening_of result ≡ spec.opening_exists (lexemes_of tokens.now) }
{
    match tokens {
        [
            Token {
                kind: TokenKind::Sign(Sign::Open),
                ..
            },
            rest @ ..,
        ] => Opening::Existence(rest),
        _ => Opening::Nothing,
    }
}

fn opening_word<'t>(word: Keyword, rest: &'t [Token<'t>]) -> Opening<'t>
    ensures { opening_of result ≡ spec.opening_word word (lexemes_of rest.now) }
{
    match word {
        Keyword::Null => Opening::Value(Literal::Null, rest),
        Keyword::Not => Opening::Operator(PrefixOperator::Not, rest),
        Keyword::Case => Opening::Choice(rest),
        Keyword::Exists => opening_exists(rest),
        _ => Opening::Nothing,
    }
}

/// What an operand begins with.
pub fn opening_at<'t>(tokens: &'t [Token<'t>]) -> Opening<'t>
    ensures { opening_of result ≡ spec.opening (lexemes_of tokens.now) }
{
    let [first, rest @ ..] = tokens else {
        return Opening::Nothing;
    };
    match first.kind {
        TokenKind::Number(number) => Opening::Value(Literal::Number(number), rest),
        TokenKind::Text(inside) => Opening::Value(Literal::Text(inside), rest),
        TokenKind::Blob(digits) => Opening::Value(Literal::Blob(digits), rest),
        TokenKind::Name(quoting, inside) => Opening::Word(quoting, inside, rest),
        TokenKind::Keyword(word) => opening_word(word, rest),
        TokenKind::Sign(sign) => opening_sign(sign, rest),
    }
}

fn joint_after_not<'t>(tokens: &'t [Token<'t>]) -> Joint<'t>
    ensures { joint_of result ≡ spec.joint_after_not (lexemes_of tokens.now) }
{
    match tokens {
        [
            Token {
                kind: TokenKind::Keyword(Keyword::Like),
                ..
            },
            rest @ ..,
        ] => Joint::Binary(BinaryOperator::NotLike, rest),
        [
            Token {
                kind: TokenKind::Keyword(Keyword::Between),
                ..
            },
            rest @ ..,
        ] => Joint::Between(true, rest),
        [
            Token {
                kind: TokenKind::Keyword(Keyword::In),
                ..
            },
            rest @ ..,
        ] => Joint::In(true, rest),
        _ => Joint::Dangling,
    }
}

fn joint_after_is<'t>(tokens: &'t [Token<'t>]) -> Joint<'t>
    ensures { joint_of result ≡ spec.joint_after_is (lexemes_of tokens.now) }
{
    match tokens {
        [
            Token {
                kind: TokenKind::Keyword(Keyword::Not),
                ..
            },
            rest @ ..,
        ] => Joint::Binary(BinaryOperator::IsNot, rest),
        _ => Joint::Binary(BinaryOperator::Is, tokens),
    }
}

fn joint_word<'t>(word: Keyword, rest: &'t [Token<'t>]) -> Joint<'t>
    ensures { joint_of result ≡ spec.joint_word word (lexemes_of rest.now) }
{
    match word {
        Keyword::Or => Joint::Binary(BinaryOperator::Or, rest),
        Keyword::And => Joint::Binary(BinaryOperator::And, rest),
        Keyword::Is => joint_after_is(rest),
        Keyword::Like => Joint::Binary(BinaryOperator::Like, rest),
        Keyword::Between => Joint::Between(false, rest),
        Keyword::In => Joint::In(false, rest),
        Keyword::Not => joint_after_not(rest),
        Keyword::IsNull => Joint::Postfix(PostfixOperator::IsNull, rest),
        Keyword::NotNull => Joint::Postfix(PostfixOperator::NotNull, rest),
        Keyword::Filter | Keyword::Over => Joint::Tight,
        _ => Joint::Stop,
    }
}

fn joint_sign<'t>(sign: Sign, rest: &'t [Token<'t>]) -> Joint<'t>
    ensures { joint_of result ≡ spec.joint_sign sign (lexemes_of rest.now) }
{
    let operator = match sign {
        Sign::Equal | Sign::DoubleEqual => BinaryOperator::Equal,
        Sign::NotEqual | Sign::LessGreater => BinaryOperator::NotEqual,
        Sign::Less => BinaryOperator::Less,
        Sign::LessEqual => BinaryOperator::LessEqual,
        Sign::Greater => BinaryOperator::Greater,
        Sign::GreaterEqual => BinaryOperator::GreaterEqual,
        Sign::Ampersand => BinaryOperator::BitAnd,
        Sign::Bar => BinaryOperator::BitOr,
        Sign::Plus => BinaryOperator::Add,
        Sign::Minus => BinaryOperator::Subtract,
        Sign::Star => BinaryOperator::Multiply,
        Sign::Slash => BinaryOperator::Divide,
        Sign::Percent => BinaryOperator::Remainder,
        Sign::DoubleBar => BinaryOperator::Concatenate,
        Sign::Open | Sign::Dot => return Joint::Tight,
        Sign::Close | Sign::Comma | Sign::Semicolon | Sign::Tilde => return Joint::Stop,
    };
    Joint::Binary(operator, rest)
}

/// What an expression goes on with.
pub fn joint_at<'t>(tokens: &'t [Token<'t>]) -> Joint<'t>
    ensures { joint_of result ≡ spec.joint (lexemes_of tokens.now) }
{
    let [first, rest @ ..] = tokens else {
        return Joint::Stop;
    };
    match first.kind {
        TokenKind::Keyword(word) => joint_word(word, rest),
        TokenKind::Sign(sign) => joint_sign(sign, rest),
        _ => Joint::Stop,
    }
}

/// The level of what an expression goes on with, or `NO_LEVEL`.
pub fn binds(tokens: &[Token<'_>]) -> u8
    ensures { result ≡ spec.binds (lexemes_of tokens.now) }
{
    match joint_at(tokens) {
        Joint::Binary(operator, _) => level_of(operator),
        Joint::Between(..) | Joint::In(..) | Joint::Postfix(..) | Joint::Dangling => {
            EQUALITY_LEVEL
        }
        Joint::Tight => PART_LEVEL,
        Joint::Stop => NO_LEVEL,
    }
}

/// What stands behind a name.
pub fn following_at<'t>(tokens: &'t [Token<'t>]) -> Following<'t>
    ensures { following_of result ≡ spec.following (lexemes_of tokens.now) }
{
    match tokens {
        [
            Token {
                kind: TokenKind::Sign(Sign::Open),
                ..
            },
            rest @ ..,
        ] => Following::Call(rest),
        [
            Token {
                kind: TokenKind::Sign(Sign::Dot),
                ..
            },
            rest @ ..,
        ] => Following::Dot(rest),
        _ => Following::Else,
    }
}

/// What stands behind the parenthesis of a call.
pub fn inside_at<'t>(tokens: &'t [Token<'t>]) -> Inside<'t>
    ensures { inside_of result ≡ spec.inside (lexemes_of tokens.now) }
{
    match tokens {
        [
            Token {
                kind: TokenKind::Sign(Sign::Close),
                ..
            },
            rest @ ..,
        ] => Inside::Closed(rest),
        [
            Token {
                kind: TokenKind::Sign(Sign::Star),
                ..
            },
            rest @ ..,
        ] => Inside::Star(rest),
        _ => Inside::Arguments,
    }
}

/// What stands behind the parenthesis of IN.
pub fn membership_at<'t>(tokens: &'t [Token<'t>]) -> Membership<'t>
    ensures { membership_of result ≡ spec.membership (lexemes_of tokens.now) }
{
    match tokens {
        [
            Token {
                kind: TokenKind::Sign(Sign::Close),
                ..
            },
            rest @ ..,
        ] => Membership::Empty(rest),
        [
            Token {
                kind: TokenKind::Keyword(Keyword::Select),
                ..
            },
            ..
        ] => Membership::Query,
        _ => Membership::Members,
    }
}

/// These tokens, unless an operator that binds tighter than `=` stands there.
pub fn loosely<'t>(tokens: &'t [Token<'t>], end: usize) -> Result<&'t [Token<'t>], Fault>
    ensures { Yields (λ r. lexemes_of r.now) result (needed (reading.loosely (lexemes_of tokens.now))) }
{
    if binds(tokens) <= EQUALITY_LEVEL {
        Ok(tokens)
    } else {
        Err(Fault::Syntax(place_of(tokens, end)))
    }
}

/// These tokens, if a number stands there that no operator follows.
pub fn alone<'t>(tokens: &'t [Token<'t>], end: usize) -> Result<&'t [Token<'t>], Fault>
    ensures { Yields (λ r. lexemes_of r.now) result (reading.alone (lexemes_of tokens.now)) }
{
    match tokens {
        [
            Token {
                kind: TokenKind::Number(_),
                ..
            },
            rest @ ..,
        ] => {
            if binds(rest) == NO_LEVEL {
                Ok(tokens)
            } else {
                Err(Fault::Syntax(place_of(rest, end)))
            }
        }
        _ => Err(Fault::Syntax(place_of(tokens, end))),
    }
}
