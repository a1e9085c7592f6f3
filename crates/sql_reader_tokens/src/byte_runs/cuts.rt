//! Cuts of a text at an ASCII byte.
ghost use Rattle.std.specs.Prelude.{◌≡◌, ◌<◌, ◌≤◌, ◌+◌, ◌-◌, take, drop, length, slice_index};

/// Cuts a text before a byte of ASCII, or at its end.
#[tactic(auto, using(crate::proofs::lemmas::byte_runs::CutLemmas::before_ascii))]
pub fn split_before(text: &str, len: usize) -> (&str, &str)
    requires within { len ≤ length text.now }
    requires ascii { len < length text.now → slice_index text.now len < 128 }
    ensures front { result.0.now ≡ take len text.now }
    ensures back { result.1.now ≡ drop len text.now }
    ensures front_len { length result.0.now ≡ len }
    ensures back_len { length result.1.now + len ≡ length text.now }
{
    text.split_at(len)
}

/// What is behind the first byte, which is one of ASCII.
#[tactic(auto, using(crate::proofs::lemmas::byte_runs::CutLemmas::after_ascii))]
pub fn after_first(text: &str) -> &str
    requires within { 0 < length text.now }
    requires ascii { slice_index text.now 0 < 128 }
    ensures rest { result.now ≡ drop 1 text.now }
    ensures len { length result.now + 1 ≡ length text.now }
{
    text.split_at(1).1
}
