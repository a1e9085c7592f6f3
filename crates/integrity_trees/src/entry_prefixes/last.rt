//! The record of the entry before.
ghost use Rattle.std.specs.Prelude.{◌≡◌, false, true, OnOk};

use std::alloc::{AllocError, Global};
use std::marker::Model;

/// The record of the entry before, where there is one, in a buffer that grows to the longest one.
#[derive(Debug, Drop)]
pub(crate) struct LastRecord {
    is_some: bool,
    bytes: Vec<u8>,
}

impl Model for LastRecord {
    ghost use Rattle.integrity_trees.specs.entry_prefixes.Last.{LastData};

    ghost Value = { LastData };

    ghost view = { λ last. record { is_some = last.is_some; bytes = last.bytes.items } };
}

impl LastRecord {
    /// Before the first entry.
    pub(crate) fn new(alloc: Global) -> LastRecord
        ensures { result.is_some ≡ false }
    {
        LastRecord {
            is_some: false,
            bytes: Vec::new(alloc),
        }
    }

    /// Whether there is one.
    #[inline]
    pub(crate) fn is_some(&self) -> bool
        ensures { result ≡ self.now.is_some }
    {
        self.is_some
    }

    /// Its bytes.
    #[inline]
    pub(crate) fn bytes(&self) -> &[u8]
        ensures { result.now ≡ self.now.bytes }
    {
        self.bytes.as_slice()
    }

    /// Keeps a record in the place of it.
    pub(crate) fn put(&mut self, bytes: &[u8]) -> Result<(), AllocError>
        ensures { OnOk result (self.new ≡ record { is_some = true; bytes = bytes.now }) }
    {
        self.bytes.clear();
        self.bytes.extend_from_slice(bytes)?;
        self.is_some = true;
        Ok(())
    }
}
