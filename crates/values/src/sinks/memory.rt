//! A sink over memory.
ghost use Rattle.std.specs.Prelude.{◌≡◌, [], Some};

use crate::{Sink, SinkFault};
use std::alloc::Global;

/// Bytes in memory. It fails only where its growth is refused.
#[derive(Drop)]
pub struct MemSink {
    bytes: Vec<u8>,
    failures: u64,
}

impl MemSink {
    /// An empty sink.
    pub fn new(alloc: Global) -> MemSink
        ensures { ⟦<MemSink as Sink>⟧.facts result ≡ record { written = Some []; failures = 0 } }
    {
        MemSink {
            bytes: Vec::new(alloc),
            failures: 0,
        }
    }

    /// What was written.
    pub fn as_slice(&self) -> &[u8]
        ensures { (⟦<MemSink as Sink>⟧.facts self.now).written ≡ Some result.now }
    {
        self.bytes.as_slice()
    }
}

impl Sink for MemSink {
    ghost use Rattle.std.specs.Prelude.{Some};
    ghost use Rattle.values.specs.Sink.{SinkFacts};

    ghost facts = { λ s. record { written = Some s.bytes.items; failures = s.failures } };

    fn write(&mut self, piece: &[u8]) -> Result<usize, SinkFault> {
        match self.bytes.extend_from_slice(piece) {
            Ok(()) => Ok(piece.len()),
            Err(_) => {
                self.failures = self.failures.wrapping_add(1);
                Err(SinkFault)
            }
        }
    }
}
