//! Spaces and comments.
ghost use Rattle.std.specs.Prelude.{◌≡◌, ◌<◌, ◌+◌, ◌-◌, drop, length, slice_index, IfSome, option_map};
ghost use Rattle.sql_reader_tokens.specs.byte_runs.Bytes as bytes;
ghost use Rattle.sql_reader_tokens.specs.byte_runs.Runs as runs;
ghost use Rattle.sql_reader_tokens.specs.Reading as spec;

use crate::byte_runs::{Class, after_first, run_len, split_before};

/// Whether a byte is a space: also a tab, line feed, form feed or carriage return.
fn is_space(byte: u8) -> bool
    ensures { result ≡ bytes.is_space byte }
{
    matches!(byte, b' ' | b'\t' | b'\n' | 12 | b'\r')
}

/// Where the slash of the first `*/` stands.
#[tactic(auto, using(crate::proofs::CommentLemmas::comment_more, crate::proofs::CommentLemmas::comment_here, crate::proofs::CommentLemmas::comment_open))]
fn comment_end(text: &[u8]) -> Option<usize>
    ensures within { IfSome result (λ end. (end < length text.now) × (slice_index text.now end ≡ 47)) }
    ensures found { spec.after_comment text.now ≡ option_map (λ end. drop (end + 1) text.now) result }
{
    let mut at = 1;
    while at < text.len() {
        if text[at - 1] == b'*' && text[at] == b'/' {
            return Some(at);
        }
        at += 1;
    }
    None
}

/// What is behind a comment that began with `--`: its end is a line feed or the end of the text.
#[tactic(auto, using(crate::proofs::CommentLemmas::line_feed))]
fn after_line_comment(comment: &str) -> &str
    ensures { result.now ≡ (runs.run_of (bytes.is_not 10) comment.now).1 }
{
    let len = run_len(comment.as_bytes(), Class::Not(b'\n'));
    split_before(comment, len).1
}

/// What is behind a comment that began with `/*`, if it is closed.
#[tactic(auto, using(crate::proofs::CommentLemmas::behind))]
fn after_block_comment(comment: &str) -> Option<&str>
    ensures { option_map (λ r. r.now) result ≡ spec.after_comment comment.now }
{
    let end = comment_end(comment.as_bytes())?;
    let (_, slash) = split_before(comment, end);
    Some(after_first(slash))
}

/// What is behind the space or the comment at the front, if one stands there. (SQL Comment Syntax)
#[tactic(auto, unfolding(crate::specs::Reading::blank))]
pub(crate) fn skip_blank(text: &str) -> Option<&str>
    ensures { option_map (λ r. r.now) result ≡ spec.blank text.now }
{
    match text.as_bytes() {
        [b'-', b'-', ..] => Some(after_line_comment(after_first(after_first(text)))),
        [b'/', b'*', ..] => after_block_comment(after_first(after_first(text))),
        [first, ..] if is_space(*first) => Some(after_first(text)),
        _ => None,
    }
}
