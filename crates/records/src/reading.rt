//! The parts of a record: its header, the serial types written there, and the fields whose bodies follow it.
//! (Database File Format, section 2.1)
ghost use Rattle.std.specs.Prelude.{ℕ, ℤ, List, map, IfSome, IfNone, IfOk, IfErr};
ghost use Rattle.values.specs.Datum.{datum_of_ref};
ghost use Rattle.records.specs.Record.{SplitsHeader, AreTypes, AreBodies, BreaksBodies, IsBadWhere};

use crate::fault::RecordFault;
use crate::serials::first_field;
use crate::varints::varint;
use smallvec::SmallVec;
use std::alloc::Global;
use values::ValueRef;

/// The types of a record's header, as they are spelt, and the bodies behind it; `None` where there is no such header.
#[inline(always)]
pub(crate) fn split_header(bytes: &[u8]) -> Option<(&[u8], &[u8])>
    ensures found { IfSome result (λ parts. SplitsHeader bytes.now parts.0.now parts.1.now) }
    ensures none { IfNone result ((spelt bodies : List ℕ) → ¬ (SplitsHeader bytes.now spelt bodies)) }
{
    let (size, start) = varint(bytes)?;
    let Ok(end) = usize::try_from(size) else {
        return None;
    };
    if end < start || bytes.len() < end {
        return None;
    }
    Some((&bytes[start..end], &bytes[end..]))
}

/// The types that the bytes spell, all of the bytes.
#[inline]
pub(crate) fn types_of(alloc: Global, spelt: &[u8]) -> Result<SmallVec<i64, 16>, RecordFault>
    ensures found { IfOk result (λ types. AreTypes spelt.now types.items) }
    ensures none { IfErr result (IsBadWhere ((types : List ℤ) → ¬ (AreTypes spelt.now types))) }
{
    let mut types = SmallVec::new(alloc);
    let mut rest = spelt;
    while !rest.is_empty() {
        let Some((serial, len)) = varint(rest) else {
            return Err(RecordFault::Bad);
        };
        types.push(serial)?;
        rest = &rest[len..];
    }
    Ok(types)
}

/// The values of these types whose bodies the bytes are, all of the bytes.
#[inline]
pub(crate) fn fields_of<'p>(
    alloc: Global,
    types: &[i64],
    bodies: &'p [u8],
) -> Result<SmallVec<ValueRef<'p>, 8>, RecordFault>
    ensures found { IfOk result (λ fields. AreBodies types.now bodies.now (map datum_of_ref fields.items)) }
    ensures fault { IfErr result (λ fault. BreaksBodies fault types.now bodies.now) }
{
    let mut fields = SmallVec::new(alloc);
    let mut rest = bodies;
    for serial in types {
        let (value, after) = first_field(*serial, rest)?;
        fields.push(value)?;
        rest = after;
    }
    if !rest.is_empty() {
        return Err(RecordFault::Bad);
    }
    Ok(fields)
}
