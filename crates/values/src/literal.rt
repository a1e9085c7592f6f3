//! Values as SQL literals.
ghost use Rattle.std.specs.Prelude.{◌≡◌, ◌<◌, IfErr};
ghost use Rattle.values.specs.Datum.{datum_of, datum_of_ref};
ghost use Rattle.values.specs.Literal.{hex_digit, hex_all, literal, quoted_all};
ghost use Rattle.values.specs.Sink.{Writes};

use crate::{Fault, Sink, Value, ValueRef, write_all};
use itoa::Buffer;
use memchr::memchr;

const QUOTE: u8 = b'\'';

/// Writes a text with each quote doubled, in one piece more than it has quotes.
fn write_quoted<S: Sink>(text: &[u8], out: &mut S) -> Result<(), Fault>
    ensures only { IfErr result (λ e. e ≡ Fault.WriteFailed) }
    ensures writes { Writes (quoted_all text.now) result (S.facts out.old) (S.facts out.new) }
{
    // Each piece but the first begins with the quote that the piece before it ended with, so that this stands twice.
    let mut piece = text;
    let mut seen = 0;
    while let Some(ahead) = memchr(QUOTE, &piece[seen..]) {
        let quote = seen + ahead;
        write_all(out, &piece[..quote + 1])?;
        piece = &piece[quote..];
        seen = 1;
    }
    write_all(out, piece)
}

/// 0 to 9, then A to F.
fn hex_digit_of(digit: u8) -> u8
    requires { digit < 16 }
    ensures { result ≡ hex_digit digit }
{
    if digit < 10 {
        digit + b'0'
    } else {
        digit - 10 + b'A'
    }
}

/// Writes two hexadecimal digits for each byte.
fn write_hex<S: Sink>(bytes: &[u8], out: &mut S) -> Result<(), Fault>
    ensures only { IfErr result (λ e. e ≡ Fault.WriteFailed) }
    ensures writes { Writes (hex_all bytes.now) result (S.facts out.old) (S.facts out.new) }
{
    for &byte in bytes {
        write_all(out, &[hex_digit_of(byte / 16), hex_digit_of(byte % 16)])?;
    }
    Ok(())
}

impl ValueRef<'_> {
    /// Writes this value as an SQL literal. Its one fault is `WriteFailed`, after a beginning of the literal; it
    /// takes no memory.
    pub fn write_literal<S: Sink>(self, out: &mut S) -> Result<(), Fault>
        ensures only { IfErr result (λ e. e ≡ Fault.WriteFailed) }
        ensures writes { Writes (literal (datum_of_ref self.entry)) result (S.facts out.old) (S.facts out.new) }
    {
        match self {
            ValueRef::Null => write_all(out, b"NULL"),
            ValueRef::Int(number) => write_all(out, Buffer::new().format(number).as_bytes()),
            ValueRef::Text(text) => {
                write_all(out, b"'")?;
                write_quoted(text.as_bytes(), out)?;
                write_all(out, b"'")
            }
            ValueRef::Blob(bytes) => {
                write_all(out, b"X'")?;
                write_hex(bytes, out)?;
                write_all(out, b"'")
            }
        }
    }
}

/// Writes a value as an SQL literal: `NULL`, decimal, text in single quotes with each quote doubled, `X'0AFF'`. Its
/// one fault is `WriteFailed`, after a beginning of the literal; it takes no memory.
/// (SQL Language Expressions, "Literal Values (Constants)")
pub fn write_literal<S: Sink>(value: &Value, out: &mut S) -> Result<(), Fault>
    ensures only { IfErr result (λ e. e ≡ Fault.WriteFailed) }
    ensures writes { Writes (literal (datum_of value.now)) result (S.facts out.old) (S.facts out.new) }
{
    value.as_ref().write_literal(out)
}
