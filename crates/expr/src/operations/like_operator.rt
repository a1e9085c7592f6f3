//! LIKE: a pattern against a text. (SQL Language Expressions, "The LIKE, GLOB, REGEXP, MATCH, and extract operators")
ghost use Rattle.std.specs.Prelude.{◌≡◌, ◌≤◌, IfOk, IfSome, length, option_map};
ghost use Rattle.std.specs.Str.{chars};
ghost use Rattle.values.specs.Datum.{datum_of};
ghost use Rattle.expr.specs.operations.Like.{any_rest, fits_one, like_of, likes, past};

use crate::operations::operations::from_condition;
use std::alloc::{AllocError, Global};
use values::Value;

/// Whether a text matches a pattern; NULL where one of them is no text.
#[tactic(auto, unfolding(crate::specs::operations::Like::like_of))]
pub fn like(alloc: Global, value: &Value, pattern: &Value) -> Result<Value, AllocError>
    ensures { IfOk result (λ v. datum_of v ≡ like_of (datum_of value.now) (datum_of pattern.now)) }
{
    match (value, pattern) {
        (Value::Text(text), Value::Text(pattern)) => {
            let pattern = characters(alloc, pattern.as_str())?;
            let text = characters(alloc, text.as_str())?;
            Ok(from_condition(Some(likes(pattern.as_slice(), text.as_slice()))))
        }
        _ => Ok(Value::Null),
    }
}

// The characters of a text.
fn characters(alloc: Global, text: &str) -> Result<Vec<char>, AllocError>
    ensures { IfOk result (λ v. v.items ≡ chars text.now) }
{
    text.chars().collect(alloc)
}

// `%` is any run of characters, `_` one, and letters of ASCII match without case.
fn likes(pattern: &[char], text: &[char]) -> bool
    ensures { result ≡ likes pattern.now text.now }
{
    match past_segment(pattern, text) {
        None => false,
        Some((left, rest)) => match left.split_first() {
            None => rest.is_empty(),
            Some((_, after)) => matches_end(after, rest),
        },
    }
}

// Whether an end of the text matches. Where the pattern up to its next `%` stands, the first such place is as good as
// any other, so no place is tried twice.
fn matches_end(pattern: &[char], text: &[char]) -> bool
    ensures { result ≡ any_rest (likes pattern.now) text.now }
{
    let mut segments = pattern;
    let mut rest = text;
    loop {
        if let Some((left, behind)) = past_segment(segments, rest) {
            match left.split_first() {
                None => {
                    if behind.is_empty() {
                        return true;
                    }
                }
                Some((_, after)) => {
                    segments = after;
                    rest = behind;
                    continue;
                }
            }
        }
        match rest.split_first() {
            None => return false,
            Some((_, later)) => rest = later,
        }
    }
}

// What is left of the pattern and of the text where the pattern up to its next `%` stands at the text's front.
fn past_segment<'a>(pattern: &'a [char], text: &'a [char]) -> Option<(&'a [char], &'a [char])>
    ensures left { option_map (λ s. (s.0.now, s.1.now)) result ≡ past pattern.now text.now }
    ensures shorter { IfSome result (λ s. (length s.0.now ≤ length pattern.now) × (length s.1.now ≤ length text.now)) }
{
    let mut segment = pattern;
    let mut rest = text;
    loop {
        let (wanted, after) = match segment.split_first() {
            None => return Some((segment, rest)),
            Some(front) => front,
        };
        if *wanted == '%' {
            return Some((segment, rest));
        }
        match rest.split_first() {
            None => return None,
            Some((found, behind)) => {
                if !fits_one(*wanted, *found) {
                    return None;
                }
                segment = after;
                rest = behind;
            }
        }
    }
}

// Whether a character that is not `%` stands for another.
fn fits_one(wanted: char, found: char) -> bool
    ensures { result ≡ fits_one wanted found }
{
    wanted == '_' || wanted.eq_ignore_ascii_case(&found)
}
