//! An image in memory.
ghost use Rattle.std.specs.Prelude.{◌≡◌, true};

use crate::{Source, SourceFault};
use std::marker::Model;

/// Bytes in memory, which are steady. A read fails only outside of them.
#[derive(Drop)]
pub struct MemSource {
    bytes: Vec<u8>,
    failures: u64,
}

impl Model for MemSource {
    ghost use Rattle.std.specs.Prelude.{true};
    ghost use Rattle.pager.specs.Source.{SourceFacts};

    ghost Value = { SourceFacts };

    ghost view = { λ s. record { bytes = s.bytes.items; steady = true; failures = s.failures } };
}

impl MemSource {
    /// A source of these bytes, that has not failed.
    pub fn new(bytes: Vec<u8>) -> MemSource
        ensures { result ≡ record { bytes = bytes.items; steady = true; failures = 0 } }
    {
        MemSource { bytes, failures: 0 }
    }
}

impl Source for MemSource {
    ghost use Rattle.std.specs.Prelude.{◌≡◌, ◌+◌, ◌≤◌, length, IfOk, IsOk, IsTrue, OnOk};
    ghost use Rattle.pager.specs.Source.{SourceFacts, IsRun, Touches};

    ghost facts = { λ s. s };

    fn len(&mut self) -> Result<u64, SourceFault>
        ensures length { IsTrue self.old.steady → IfOk result (λ n. n ≡ length self.old.bytes) }
        ensures touches { Touches result self.old self.new }
        ensures succeeds { IsOk result }
    {
        Ok(self.bytes.len() as u64)
    }

    fn read_at(&mut self, place: u64, buf: &mut [u8]) -> Result<(), SourceFault>
        ensures bytes { IsTrue self.old.steady → OnOk result (IsRun self.old.bytes place buf.new) }
        ensures touches { Touches result self.old self.new }
        ensures succeeds { place + length buf.old ≤ length self.old.bytes → IsOk result }
    {
        match place.checked_add(buf.len() as u64) {
            Some(end) if end <= self.bytes.len() as u64 => {
                buf.copy_from_slice(&self.bytes[place as usize..end as usize]);
                Ok(())
            }
            _ => {
                self.failures = self.failures.wrapping_add(1);
                Err(SourceFault)
            }
        }
    }
}
