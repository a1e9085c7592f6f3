//! A sink that fails where a script says so.
ghost use Rattle.std.specs.Prelude.{◌≡◌, ◌≢◌, [], Some};

use std::alloc::Global;
use values::{Sink, SinkFault};

/// A sink that takes at most `step` bytes at a call and `room` bytes in all, and then fails. It counts its calls.
#[derive(Drop)]
pub struct ScriptSink {
    bytes: Vec<u8>,
    step: usize,
    room: usize,
    calls: u64,
    failures: u64,
}

impl ScriptSink {
    /// A sink that fails when it has taken so many bytes.
    pub fn new(alloc: Global, room: usize) -> ScriptSink
        ensures { ⟦<ScriptSink as Sink>⟧.facts result ≡ record { written = Some []; failures = 0 } }
    {
        ScriptSink::in_steps(alloc, usize::MAX, room)
    }

    /// A sink that takes at most `step` bytes at a call, and fails when it has taken `room` bytes.
    pub fn in_steps(alloc: Global, step: usize, room: usize) -> ScriptSink
        ensures { ⟦<ScriptSink as Sink>⟧.facts result ≡ record { written = Some []; failures = 0 } }
    {
        ScriptSink {
            bytes: Vec::new(alloc),
            step,
            room,
            calls: 0,
            failures: 0,
        }
    }

    /// What it has taken.
    pub fn as_slice(&self) -> &[u8] {
        self.bytes.as_slice()
    }

    /// How often it was called.
    pub fn calls(&self) -> u64 {
        self.calls
    }

    /// How many calls failed.
    pub fn failures(&self) -> u64 {
        self.failures
    }

    fn fail(&mut self) -> SinkFault
        ensures bytes { self.new.bytes.items ≡ self.old.bytes.items }
        ensures failures { self.new.failures ≢ self.old.failures }
    {
        self.failures = self.failures.wrapping_add(1);
        SinkFault
    }
}

impl Sink for ScriptSink {
    ghost use Rattle.std.specs.Prelude.{Some};
    ghost use Rattle.values.specs.Sink.{SinkFacts};

    ghost facts = { λ s. record { written = Some s.bytes.items; failures = s.failures } };

    fn write(&mut self, piece: &[u8]) -> Result<usize, SinkFault> {
        self.calls = self.calls.saturating_add(1);
        let taken = piece.len().min(self.step).min(self.room);
        if taken == 0 && !piece.is_empty() {
            return Err(self.fail());
        }
        match self.bytes.extend_from_slice(&piece[..taken]) {
            Ok(()) => {
                self.room -= taken;
                Ok(taken)
            }
            Err(_) => Err(self.fail()),
        }
    }
}
