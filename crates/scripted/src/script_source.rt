//! A source that fails, or changes its bytes, where a script says so.
ghost use Rattle.std.specs.Prelude.{◌≡◌, ◌≢◌, true, false};

use pager::{Source, SourceFault};

/// Which calls of a source fail. Reads are counted from 1.
#[derive(Clone, Copy, Debug, PartialEq, Eq)]
pub enum ReadScript {
    /// None.
    Never,
    /// This read, and no other call.
    At(u64),
    /// Each read from this one on.
    From(u64),
    /// Each question for the length.
    Length,
}

/// Bytes in memory, of which chosen reads fail. It counts its reads, and may give other bytes from one of them on.
#[derive(Drop)]
pub struct ScriptSource {
    bytes: Vec<u8>,
    later: Option<Vec<u8>>,
    steady: bool,
    change: u64,
    script: ReadScript,
    reads: u64,
    failures: u64,
}

impl ReadScript {
    fn fails(self, read: u64) -> bool {
        match self {
            ReadScript::Never | ReadScript::Length => false,
            ReadScript::At(place) => read == place,
            ReadScript::From(first) => read >= first,
        }
    }
}

impl ScriptSource {
    /// A source of these bytes.
    pub fn new(bytes: Vec<u8>, script: ReadScript) -> ScriptSource
        ensures { ⟦<ScriptSource as Source>⟧.facts result ≡ record { bytes = bytes.items; steady = true; failures = 0 } }
    {
        ScriptSource {
            bytes,
            later: None,
            steady: true,
            change: 0,
            script,
            reads: 0,
            failures: 0,
        }
    }

    /// A source of these bytes until a read, counted from 1, and of other bytes from that read on.
    pub fn changing(bytes: Vec<u8>, later: Vec<u8>, change: u64, script: ReadScript) -> ScriptSource
        ensures { ⟦<ScriptSource as Source>⟧.facts result ≡ record { bytes = bytes.items; steady = false; failures = 0 } }
    {
        ScriptSource {
            bytes,
            later: Some(later),
            steady: false,
            change,
            script,
            reads: 0,
            failures: 0,
        }
    }

    /// How many reads there were, those that failed included.
    pub fn reads(&self) -> u64 {
        self.reads
    }

    /// How many calls failed.
    pub fn failures(&self) -> u64 {
        self.failures
    }

    /// The same source under another script. Its reads are counted from 1 again.
    pub fn with_script(self, script: ReadScript) -> ScriptSource {
        ScriptSource {
            script,
            reads: 0,
            ..self
        }
    }

    /// The bytes that a call gives after so many reads.
    fn current(&self, reads: u64) -> &[u8]
        ensures { self.now.steady ≡ true → result.now ≡ self.now.bytes.items }
    {
        match &self.later {
            Some(later) if !self.steady && reads >= self.change => later.as_slice(),
            _ => self.bytes.as_slice(),
        }
    }

    fn fail(&mut self) -> SourceFault
        ensures bytes { self.new.bytes.items ≡ self.old.bytes.items }
        ensures steady { self.new.steady ≡ self.old.steady }
        ensures failures { self.new.failures ≢ self.old.failures }
    {
        self.failures = self.failures.wrapping_add(1);
        SourceFault
    }
}

impl Source for ScriptSource {
    ghost use Rattle.pager.specs.Source.{SourceFacts};

    ghost facts = { λ s. record { bytes = s.bytes.items; steady = s.steady; failures = s.failures } };

    fn len(&mut self) -> Result<u64, SourceFault> {
        if self.script == ReadScript::Length {
            return Err(self.fail());
        }
        Ok(self.current(self.reads).len() as u64)
    }

    fn read_at(&mut self, place: u64, buf: &mut [u8]) -> Result<(), SourceFault> {
        self.reads = self.reads.saturating_add(1);
        if self.script.fails(self.reads) {
            return Err(self.fail());
        }
        let bytes = self.current(self.reads);
        match place.checked_add(buf.len() as u64) {
            Some(end) if end <= bytes.len() as u64 => {
                buf.copy_from_slice(&bytes[place as usize..end as usize]);
                Ok(())
            }
            _ => Err(self.fail()),
        }
    }
}
