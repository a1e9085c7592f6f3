//! A sink over any writer.
ghost use Rattle.std.specs.Prelude.{◌≡◌};

use crate::{Sink, SinkFault};
use std::io::Write;

/// A sink over a writer. A writer that takes nothing of a piece has failed.
#[derive(Drop)]
pub struct WriteSink<W: Write> {
    writer: W,
    failures: u64,
}

impl<W: Write> WriteSink<W> {
    /// A sink that has not failed.
    pub fn new(writer: W) -> WriteSink<W>
        ensures { ⟦<WriteSink<W> as Sink>⟧.facts result ≡ record { written = W.contents writer; failures = 0 } }
    {
        WriteSink {
            writer,
            failures: 0,
        }
    }
}

impl<W: Write> Sink for WriteSink<W> {
    ghost use Rattle.values.specs.Sink.{SinkFacts};

    ghost facts = { λ s. record { written = W.contents s.writer; failures = s.failures } };

    fn write(&mut self, piece: &[u8]) -> Result<usize, SinkFault> {
        match self.writer.write(piece) {
            Ok(n) if n > 0 || piece.is_empty() => Ok(n),
            _ => {
                self.failures = self.failures.wrapping_add(1);
                Err(SinkFault)
            }
        }
    }
}
