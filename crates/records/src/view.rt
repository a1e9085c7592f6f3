//! A record that is read in place.
ghost use Rattle.std.specs.Prelude.{◌≡◌, ◌<◌, List, Some, length, slice_get, MatchResult, IfOk, IfErr};
ghost use Rattle.values.specs.Datum.{Datum, datum_of_ref};
ghost use Rattle.records.specs.Record.{IsRecord, Breaks};

use crate::fault::RecordFault;
use crate::reading::{fields_of, split_header, types_of};
use smallvec::SmallVec;
use std::alloc::Global;
use std::marker::Model;
use values::ValueRef;

/// A record whose texts and blobs are slices of the bytes that it was read from; a clause sees it as the list of its
/// values.
#[derive(Debug, Drop)]
pub struct RecordView<'p> {
    fields: SmallVec<ValueRef<'p>, 8>,
}

impl<'p> Model for RecordView<'p> {
    ghost use Rattle.std.specs.Prelude.{List, map};
    ghost use Rattle.values.specs.Datum.{Datum, datum_of_ref};

    ghost Value = { List Datum };

    ghost view = { λ inside. map datum_of_ref inside.fields.items };
}

impl<'p> RecordView<'p> {
    /// Reads a record in place. (Database File Format, section 2.1)
    ///
    /// # Errors
    ///
    /// `Bad`, `Float` and `Text` come only where the bytes have that condition, and are then no record. Where several
    /// stand, which of them comes is left open. `NoMemory` may come at a record with many values.
    #[inline]
    pub fn read(alloc: Global, bytes: &'p [u8]) -> Result<RecordView<'p>, RecordFault>
        // The fields are the record's values.
        ensures found { IfOk result (λ fields. IsRecord bytes.now fields) }
        // A record is read, unless memory runs out.
        ensures only { (values : List Datum) → IsRecord bytes.now values
            → MatchResult result (λ fields. fields ≡ values) (λ fault. fault ≡ RecordFault.NoMemory) }
        // A fault's condition stands in the bytes.
        ensures fault { IfErr result (λ fault. Breaks fault bytes.now) }
    {
        let Some((spelt, bodies)) = split_header(bytes) else {
            return Err(RecordFault::Bad);
        };
        let types = types_of(alloc, spelt)?;
        let fields = fields_of(alloc, types.as_slice(), bodies)?;
        Ok(RecordView { fields })
    }

    /// How many fields the record has.
    #[inline]
    pub fn count(&self) -> usize
        ensures { result ≡ length self.now }
    {
        self.fields.len()
    }

    /// The field at an index, counted from 0; a text or a blob is a slice of the record's bytes.
    #[inline]
    pub fn field(&self, index: usize) -> ValueRef<'p>
        requires { index < length self.now }
        ensures { slice_get self.now index ≡ Some (datum_of_ref result) }
    {
        self.fields.as_slice()[index]
    }
}
