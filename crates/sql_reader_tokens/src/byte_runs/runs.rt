//! Runs of bytes of one kind, and how far it is to a closing quote.
ghost use Rattle.std.specs.Prelude.{◌≡◌, ◌<◌, ◌≤◌, ◌+◌, take, drop, length, slice_index, false, IfSome, option_map};
ghost use Rattle.sql_reader_tokens.specs.byte_runs.Bytes as bytes;
ghost use Rattle.sql_reader_tokens.specs.byte_runs.Class.{test_of};
ghost use Rattle.sql_reader_tokens.specs.byte_runs.Runs as spec;

/// A kind of bytes that make a run.
#[derive(Clone, Copy)]
pub enum Class {
    /// Letters, digits, `_`, and the bytes of characters from U+0080.
    Word,
    /// 0 to 9.
    Digit,
    /// 0 to 9, and A to F of either case.
    HexDigit,
    /// Every byte but this one.
    Not(u8),
}

/// Whether a byte begins a word, a keyword or a name.
pub fn begins_word(byte: u8) -> bool
    ensures { result ≡ bytes.begins_word byte }
{
    byte.is_ascii_alphabetic() || byte == b'_' || byte >= 128
}

impl Class {
    /// Whether a byte is of this kind.
    fn contains(self, byte: u8) -> bool
        ensures { result ≡ test_of self byte }
    {
        match self {
            Class::Word => begins_word(byte) || byte.is_ascii_digit(),
            Class::Digit => byte.is_ascii_digit(),
            Class::HexDigit => byte.is_ascii_hexdigit(),
            Class::Not(other) => byte != other,
        }
    }
}

/// How long the longest run of bytes of this kind at the front is.
#[tactic(auto, using(crate::proofs::lemmas::byte_runs::RunLemmas::split_more, crate::proofs::lemmas::byte_runs::RunLemmas::split_end))]
pub fn run_len(text: &[u8], class: Class) -> usize
    ensures within { result ≤ length text.now }
    ensures stops { result < length text.now → test_of class (slice_index text.now result) ≡ false }
    ensures run { spec.run_of (test_of class) text.now ≡ (take result text.now, drop result text.now) }
{
    let mut len = 0;
    while len < text.len() && class.contains(text[len]) {
        len += 1;
    }
    len
}

/// Where the closing quote stands, behind an opening one. A quote that is written twice closes nothing.
#[tactic(auto, using(crate::proofs::lemmas::byte_runs::RunLemmas::quoted_plain, crate::proofs::lemmas::byte_runs::RunLemmas::quoted_doubled, crate::proofs::lemmas::byte_runs::RunLemmas::quoted_close, crate::proofs::lemmas::byte_runs::RunLemmas::quoted_open))]
pub fn quoted_len(text: &[u8], quote: u8) -> Option<usize>
    ensures within { IfSome result (λ len. (len < length text.now) × (slice_index text.now len ≡ quote)) }
    ensures found { spec.quoted quote false text.now ≡ option_map (λ len. (take len text.now, drop (len + 1) text.now)) result }
{
    let mut len = 0;
    while len < text.len() {
        if text[len] != quote {
            len += 1;
        } else if len + 1 < text.len() && text[len + 1] == quote {
            len += 2;
        } else {
            return Some(len);
        }
    }
    None
}
