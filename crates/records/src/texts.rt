//! Texts in UTF-8, most of which are ASCII.
ghost use Rattle.std.specs.Prelude.{◌≡◌, ◌+◌, ◌≤◌, ◌<◌, ℕ, length, slice_index, IsTrue, IsUtf8, MatchOption};
ghost use Rattle.std.specs.Str.{IsAscii};

use std::simd::prelude::*;

/// Whether the sixteen bytes from a place on are ASCII.
#[inline(always)]
fn is_ascii_at(bytes: &[u8], at: usize) -> bool
    requires { at + 16 ≤ length bytes.now }
    ensures { IsTrue result → (i : ℕ) → at ≤ i → i < at + 16 → slice_index bytes.now i < 128 }
{
    u8x16::from_slice(&bytes[at..])
        .simd_ge(u8x16::splat(128))
        .to_bitmask()
        == 0
}

/// Whether sixteen bytes or more are ASCII.
#[inline(always)]
fn are_ascii(bytes: &[u8]) -> bool
    requires { 16 ≤ length bytes.now }
    ensures { IsTrue result → IsAscii bytes.now }
{
    let last = bytes.len() - 16;
    let mut at = 0;
    while at < last {
        if !is_ascii_at(bytes, at) {
            return false;
        }
        at += 16;
    }
    is_ascii_at(bytes, last)
}

/// Whether a few bytes are ASCII.
#[inline(always)]
fn are_few_ascii(bytes: &[u8]) -> bool
    ensures { IsTrue result → IsAscii bytes.now }
{
    for byte in bytes {
        if *byte >= 128 {
            return false;
        }
    }
    true
}

/// Whether bytes are ASCII.
#[inline(always)]
fn is_ascii(bytes: &[u8]) -> bool
    ensures { IsTrue result → IsAscii bytes.now }
{
    if bytes.len() < 16 {
        are_few_ascii(bytes)
    } else {
        are_ascii(bytes)
    }
}

/// The text that the bytes are in UTF-8; `None` where they are none.
#[inline(always)]
pub(crate) fn text_of(bytes: &[u8]) -> Option<&str>
    ensures { MatchOption result (¬ IsUtf8 bytes.now) (λ text. (text.now ≡ bytes.now) × IsUtf8 bytes.now) }
{
    if is_ascii(bytes) {
        return Some(unsafe { str::from_utf8_unchecked(bytes) });
    }
    match str::from_utf8(bytes) {
        Ok(text) => Some(text),
        Err(_) => None,
    }
}
