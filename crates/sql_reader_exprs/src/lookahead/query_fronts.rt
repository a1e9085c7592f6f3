//! What is at the front of the tokens of a query.
ghost use Rattle.std.specs.Prelude.{◌≡◌, option_map};
ghost use Rattle.sql_reader_exprs.specs.lookahead.QueryFronts.{beginning_of, joining_of, wants_of};
ghost use Rattle.sql_reader_grammar.specs.Clauses as clauses;
ghost use Rattle.sql_reader_grammar.specs.Fronts as spec;
ghost use Rattle.sql_reader_grammar.specs.phrases.Texts.{lexemes_of};
ghost use Rattle.sql_reader_tokens.specs.Content.{content_of};

use sql_reader_syntax::{CompoundOperator, Exclusion, FrameUnit, Join};
use sql_reader_tokens::{Keyword, Quoting, Sign, Token, TokenKind};

/// A token that is this reserved word.
macro_rules! word {
    ($word:ident) => {
        Token { kind: TokenKind::Keyword(Keyword::$word), .. }
    };
}

/// A token that is this sign.
macro_rules! sign {
    ($sign:ident) => {
        Token { kind: TokenKind::Sign(Sign::$sign), .. }
    };
}

/// What a result column begins with, and what is behind it.
#[derive(Clone, Copy)]
pub enum Beginning<'t> {
    Star(&'t [Token<'t>]),
    /// How the table's name is quoted, and what stands between its quotes.
    TableStar(Quoting, &'t str, &'t [Token<'t>]),
    Expression,
}

/// Whether ON or USING stands behind a join's source.
#[derive(Clone, Copy)]
pub enum Wants {
    Never,
    Maybe,
    Always,
}

/// How the next source of FROM is joined, whether a condition stands behind it, and what is behind the words.
#[derive(Clone, Copy)]
pub struct Joining<'t> {
    pub join: Join,
    pub wants: Wants,
    pub rest: &'t [Token<'t>],
}

impl Wants {
    /// Whether a condition may be written.
    pub fn may_have(self) -> bool
        ensures { result ≡ clauses.may_have (wants_of self) }
    {
        matches!(self, Wants::Maybe | Wants::Always)
    }

    /// Whether a condition may be left out.
    pub fn may_lack(self) -> bool
        ensures { result ≡ clauses.may_lack (wants_of self) }
    {
        matches!(self, Wants::Never | Wants::Maybe)
    }
}

/// Whether a name, which is written so, is that of a table before a dot and a star.
fn behind_name<'t>(quoting: Quoting, inside: &'t str, tokens: &'t [Token<'t>]) -> Beginning<'t>
    ensures { beginning_of result ≡ spec.behind_name (content_of quoting inside.now) (lexemes_of tokens.now) }
{
    match tokens {
        [sign!(Dot), sign!(Star), rest @ ..] => Beginning::TableStar(quoting, inside, rest),
        _ => Beginning::Expression,
    }
}

/// What a result column begins with.
pub fn beginning_at<'t>(tokens: &'t [Token<'t>]) -> Beginning<'t>
    ensures { beginning_of result ≡ spec.beginning (lexemes_of tokens.now) }
{
    let [first, rest @ ..] = tokens else {
        return Beginning::Expression;
    };
    match first.kind {
        TokenKind::Sign(Sign::Star) => Beginning::Star(rest),
        TokenKind::Name(quoting, inside) => behind_name(quoting, inside, rest),
        _ => Beginning::Expression,
    }
}

/// Whether DISTINCT is written, and what is behind it or ALL.
pub fn quantifier_at<'t>(tokens: &'t [Token<'t>]) -> (bool, &'t [Token<'t>])
    ensures { spec.quantifier (lexemes_of tokens.now) ≡ (result.0, lexemes_of result.1.now) }
{
    match tokens {
        [word!(Distinct), rest @ ..] => (true, rest),
        [word!(All), rest @ ..] => (false, rest),
        _ => (false, tokens),
    }
}

fn union_at<'t>(tokens: &'t [Token<'t>]) -> (CompoundOperator, &'t [Token<'t>])
    ensures { spec.union_of (lexemes_of tokens.now) ≡ (result.0, lexemes_of result.1.now) }
{
    match tokens {
        [word!(All), rest @ ..] => (CompoundOperator::UnionAll, rest),
        _ => (CompoundOperator::Union, tokens),
    }
}

/// What stands between two SELECTs, and what is behind it.
pub fn compound_at<'t>(tokens: &'t [Token<'t>]) -> Option<(CompoundOperator, &'t [Token<'t>])>
    ensures { spec.compound (lexemes_of tokens.now) ≡ option_map (λ r. (r.0, lexemes_of r.1.now)) result }
{
    match tokens {
        [word!(Union), rest @ ..] => Some(union_at(rest)),
        [word!(Intersect), rest @ ..] => Some((CompoundOperator::Intersect, rest)),
        [word!(Except), rest @ ..] => Some((CompoundOperator::Except, rest)),
        _ => None,
    }
}

fn outer_join<'t>(join: Join, tokens: &'t [Token<'t>]) -> Option<Joining<'t>>
    ensures { spec.outer join (lexemes_of tokens.now) ≡ option_map joining_of result }
{
    let rest = match tokens {
        [word!(Join), rest @ ..] | [word!(Outer), word!(Join), rest @ ..] => rest,
        _ => return None,
    };
    Some(Joining {
        join,
        wants: Wants::Always,
        rest,
    })
}

/// How the next source of FROM is joined, if one follows.
pub fn join_at<'t>(tokens: &'t [Token<'t>]) -> Option<Joining<'t>>
    ensures { spec.join_at (lexemes_of tokens.now) ≡ option_map joining_of result }
{
    let (wants, rest) = match tokens {
        [sign!(Comma), rest @ ..] | [word!(Cross), word!(Join), rest @ ..] => (Wants::Never, rest),
        [word!(Join), rest @ ..] | [word!(Inner), word!(Join), rest @ ..] => (Wants::Maybe, rest),
        [word!(Left), rest @ ..] => return outer_join(Join::Left, rest),
        [word!(Right), rest @ ..] => return outer_join(Join::Right, rest),
        [word!(Full), rest @ ..] => return outer_join(Join::Full, rest),
        _ => return None,
    };
    Some(Joining {
        join: Join::Inner,
        wants,
        rest,
    })
}

/// Whether the order descends, and what is behind ASC or DESC.
pub fn turn_at<'t>(tokens: &'t [Token<'t>]) -> (bool, &'t [Token<'t>])
    ensures { spec.turn (lexemes_of tokens.now) ≡ (result.0, lexemes_of result.1.now) }
{
    match tokens {
        [word!(Asc), rest @ ..] => (false, rest),
        [word!(Desc), rest @ ..] => (true, rest),
        _ => (false, tokens),
    }
}

/// Whether NULLs come first, where the order descends or doesn't, and what is behind the words that say it.
pub fn nulls_at<'t>(descending: bool, tokens: &'t [Token<'t>]) -> (bool, &'t [Token<'t>])
    ensures { spec.nulls descending (lexemes_of tokens.now) ≡ (result.0, lexemes_of result.1.now) }
{
    match tokens {
        [word!(Nulls), word!(First), rest @ ..] => (true, rest),
        [word!(Nulls), word!(Last), rest @ ..] => (false, rest),
        _ => (!descending, tokens),
    }
}

/// What a frame is measured in, if one begins here, and what is behind that.
pub fn unit_at<'t>(tokens: &'t [Token<'t>]) -> Option<(FrameUnit, &'t [Token<'t>])>
    ensures { spec.unit_at (lexemes_of tokens.now) ≡ option_map (λ r. (r.0, lexemes_of r.1.now)) result }
{
    match tokens {
        [word!(Rows), rest @ ..] => Some((FrameUnit::Rows, rest)),
        [word!(Range), rest @ ..] => Some((FrameUnit::Range, rest)),
        [word!(Groups), rest @ ..] => Some((FrameUnit::Groups, rest)),
        _ => None,
    }
}

/// The same behind EXCLUDE, where `all` are the tokens from that word on.
fn excluded_at<'t>(all: &'t [Token<'t>], tokens: &'t [Token<'t>]) -> (Exclusion, &'t [Token<'t>])
    ensures { spec.excluded (lexemes_of all.now) (lexemes_of tokens.now) ≡ (result.0, lexemes_of result.1.now) }
{
    match tokens {
        [word!(No), word!(Others), rest @ ..] => (Exclusion::NoOthers, rest),
        [word!(Current), word!(Row), rest @ ..] => (Exclusion::CurrentRow, rest),
        [word!(Group), rest @ ..] => (Exclusion::Group, rest),
        [word!(Ties), rest @ ..] => (Exclusion::Ties, rest),
        _ => (Exclusion::NoOthers, all),
    }
}

/// What a frame leaves out, and what is behind the words that say it.
pub fn exclusion_at<'t>(tokens: &'t [Token<'t>]) -> (Exclusion, &'t [Token<'t>])
    ensures { spec.exclusion (lexemes_of tokens.now) ≡ (result.0, lexemes_of result.1.now) }
{
    match tokens {
        [word!(Exclude), rest @ ..] => excluded_at(tokens, rest),
        _ => (Exclusion::NoOthers, tokens),
    }
}

/// What is behind PARTITION BY, if that stands here.
pub fn after_partition_by<'t>(tokens: &'t [Token<'t>]) -> Option<&'t [Token<'t>]>
    ensures { spec.after_partition_by (lexemes_of tokens.now) ≡ option_map (λ r. lexemes_of r.now) result }
{
    match tokens {
        [word!(Partition), word!(By), rest @ ..] => Some(rest),
        _ => None,
    }
}

/// What is behind ORDER BY, if that stands here.
pub fn after_order_by<'t>(tokens: &'t [Token<'t>]) -> Option<&'t [Token<'t>]>
    ensures { spec.after_order_by (lexemes_of tokens.now) ≡ option_map (λ r. lexemes_of r.now) result }
{
    match tokens {
        [word!(Order), word!(By), rest @ ..] => Some(rest),
        _ => None,
    }
}

/// What is behind GROUP BY, if that stands here.
pub fn after_group_by<'t>(tokens: &'t [Token<'t>]) -> Option<&'t [Token<'t>]>
    ensures { spec.after_group_by (lexemes_of tokens.now) ≡ option_map (λ r. lexemes_of r.now) result }
{
    match tokens {
        [word!(Group), word!(By), rest @ ..] => Some(rest),
        _ => None,
    }
}

/// Whether EXPLAIN QUERY PLAN is written, and what is behind it.
pub fn explained_at<'t>(tokens: &'t [Token<'t>]) -> (bool, &'t [Token<'t>])
    ensures { spec.explained (lexemes_of tokens.now) ≡ (result.0, lexemes_of result.1.now) }
{
    match tokens {
        [word!(Explain), word!(Query), word!(Plan), rest @ ..] => (true, rest),
        _ => (false, tokens),
    }
}
