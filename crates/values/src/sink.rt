//! Where bytes are written to.
ghost use Rattle.std.specs.Prelude.{◌≡◌, ◌≤◌, ◌<◌, length, IfOk, IfErr, OnOk};
ghost use Rattle.values.specs.Sink.{SinkFacts, TakesFront, Writes, WritesTo};

use crate::Fault;
use thiserror::Error;

/// A write failed.
#[derive(Clone, Copy, Debug, PartialEq, Eq, Error)]
#[error("the sink failed")]
pub struct SinkFault;

/// Where bytes go.
pub trait Sink {
    ghost facts: { Self → SinkFacts };

    /// Takes a beginning of the piece, which is empty only if the piece is.
    fn write(&mut self, piece: &[u8]) -> Result<usize, SinkFault>
        ensures count { IfOk result (λ n. (n ≤ length piece.now) × (0 < length piece.now → 0 < n)) }
        ensures takes { TakesFront piece.now result (facts self.old) (facts self.new) };
}

impl<S: Sink> Sink for &mut S {
    ghost facts = { λ s. S.facts s.now };

    fn write(&mut self, piece: &[u8]) -> Result<usize, SinkFault> {
        Sink::write(&mut **self, piece)
    }
}

/// Writes until the text is whole or the sink fails, and tells how many bytes were written.
#[inline]
pub fn write_front<S: Sink>(out: &mut S, text: &[u8]) -> (usize, Result<(), SinkFault>)
    ensures within { result.0 ≤ length text.now }
    ensures whole { OnOk result.1 (result.0 ≡ length text.now) }
    ensures writes { WritesTo text.now result.0 result.1 (S.facts out.old) (S.facts out.new) }
{
    let mut done = 0;
    while done < text.len() {
        match out.write(&text[done..]) {
            Ok(taken) => done += taken,
            Err(fault) => return (done, Err(fault)),
        }
    }
    (done, Ok(()))
}

/// Writes the whole text piece by piece.
#[cold]
#[inline(never)]
fn write_pieces<S: Sink>(out: &mut S, text: &[u8]) -> Result<(), Fault>
    ensures only { IfErr result (λ e. e ≡ Fault.WriteFailed) }
    ensures writes { Writes text.now result (S.facts out.old) (S.facts out.new) }
{
    match write_front(out, text) {
        (_, Ok(())) => Ok(()),
        (_, Err(_)) => Err(Fault::WriteFailed),
    }
}

/// Writes the whole text. Its one fault is `WriteFailed`, after a beginning of the text.
#[inline(always)]
pub fn write_all<S: Sink>(out: &mut S, text: &[u8]) -> Result<(), Fault>
    ensures only { IfErr result (λ e. e ≡ Fault.WriteFailed) }
    ensures writes { Writes text.now result (S.facts out.old) (S.facts out.new) }
{
    // Most sinks take most texts at once.
    match out.write(text) {
        Ok(taken) if taken == text.len() => Ok(()),
        Ok(taken) => write_pieces(out, &text[taken..]),
        Err(_) => Err(Fault::WriteFailed),
    }
}
