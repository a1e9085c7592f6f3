//! A sink that hands on what is written to it in large pieces.
ghost use Rattle.std.specs.Prelude.{◌≡◌, ◌≢◌, ◌-◌, ◌≤◌, [], drop, vec_len, vec_capacity, IfErr, IfOk, MatchResult, OnOk};
ghost use Rattle.std.specs.Io.KnownBytes.{Appends};
ghost use Rattle.values.specs.sinks.Gathered.{gathered_facts};
ghost use Rattle.values.specs.Sink.{Writes};

use crate::{Fault, Sink, SinkFault, write_all, write_front};
use std::alloc::{AllocError, Global};
use std::marker::Model;

/// The most bytes that are held before they are handed on.
const HELD_MOST: usize = 65536;

/// Gathers up to 64 KiB before it hands them to the inner sink. It is no `Drop` type: only `finish` ends it, so that
/// what it still holds can't be lost, nor a failure to write that, in silence.
pub struct Gathered<S: Sink> {
    inner: S,
    held: Vec<u8>,
}

impl<S: Sink> Model for Gathered<S> {
    ghost use Rattle.std.specs.Prelude.{◌≤◌, vec_len, vec_capacity};
    ghost use Rattle.values.specs.sinks.Gathered.{Gathering};

    ghost Value = { Gathering };

    ghost view = { λ g. record { inner = S.facts g.inner; held = g.held.items } };

    ghost invariant = { λ g. (vec_len g.held ≤ 65536) × (65536 ≤ vec_capacity g.held) };
}

/// Drops the first bytes.
fn remove_front(bytes: &mut Vec<u8>, count: usize)
    requires { count ≤ vec_len bytes.old }
    ensures items { bytes.new.items ≡ drop count bytes.old.items }
    ensures len { vec_len bytes.new ≡ vec_len bytes.old - count }
    ensures capacity { vec_capacity bytes.new ≡ vec_capacity bytes.old }
{
    let len = bytes.len();
    bytes.as_mut_slice().copy_within(count..len, 0);
    bytes.truncate(len - count);
}

impl<S: Sink> Gathered<S> {
    /// A sink that holds nothing yet.
    pub fn new(alloc: Global, inner: S) -> Result<Gathered<S>, AllocError>
    where
        S: Drop,
        ensures { IfOk result (λ gathered. gathered ≡ record { inner = S.facts inner; held = [] }) }
    {
        let held = Vec::with_capacity(alloc, HELD_MOST)?;
        Ok(Gathered { inner, held })
    }

    /// Hands on what is held. Where that fails, what the inner sink did not take is still held.
    #[cold]
    #[inline(never)]
    fn hand_on(&mut self) -> Result<(), SinkFault>
        ensures keeps { Appends (gathered_facts self.old).written (gathered_facts self.new).written [] }
        ensures failures { MatchResult result (λ _. self.new.inner.failures ≡ self.old.inner.failures) (λ _. self.new.inner.failures ≢ self.old.inner.failures) }
        ensures empty { OnOk result (self.new.held ≡ []) }
    {
        let (taken, result) = write_front(&mut self.inner, self.held.as_slice());
        remove_front(&mut self.held, taken);
        result
    }

    /// Hands on what is held, and gives the inner sink back. Its one fault is `WriteFailed`.
    pub fn finish(self) -> (S, Result<(), Fault>)
        ensures only { IfErr result.1 (λ e. e ≡ Fault.WriteFailed) }
        ensures writes { Writes self.held result.1 self.inner (S.facts result.0) }
    {
        let Gathered { mut inner, held } = self;
        let result = write_all(&mut inner, held.as_slice());
        (inner, result)
    }
}

impl<S: Sink> Sink for Gathered<S> {
    ghost use Rattle.values.specs.sinks.Gathered.{gathered_facts};

    ghost facts = { gathered_facts };

    #[inline(always)]
    fn write(&mut self, piece: &[u8]) -> Result<usize, SinkFault> {
        // A comma or the end of a line needs no copy of a slice.
        if piece.len() == 1 && self.held.len() < HELD_MOST {
            self.held.push(piece[0]).unwrap();
            return Ok(1);
        }
        if piece.len() > HELD_MOST - self.held.len() {
            self.hand_on()?;
        }
        if piece.len() > HELD_MOST {
            return self.inner.write(piece);
        }
        self.held.extend_from_slice(piece).unwrap();
        Ok(piece.len())
    }
}
