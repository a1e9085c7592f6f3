//! The fields of an entry's bytes, of which only those asked for are read.
ghost use Rattle.std.specs.Prelude.{◌≡◌, ◌≢◌, ◌<◌, ◌++◌, ℤ, All, IfNone, IfOk, IfSome, IsFalse, IsTrue, length, take};
ghost use Rattle.values.specs.Datum.{datum_of_ref, int};
ghost use Rattle.values.specs.Row.{Row};
ghost use Rattle.records.specs.Record.{IsRecord};
ghost use Rattle.integrity_indexes.specs.entry_batches.Codes.{IsHeld, codes_of};
ghost use Rattle.integrity_indexes.specs.index_batches.Placed.{IsKeyed, TellsPlaced};

use crate::entry_batches::push_value;
use crate::index_batches::sought::SoughtBatch;
use records::FieldReader;
use std::alloc::AllocError;
use values::ValueRef;

/// The number that a value is, if it is a whole number.
#[inline]
fn number_of(value: ValueRef<'_>) -> Option<i64>
    ensures found { IfSome result (λ n. datum_of_ref value.entry ≡ int n) }
    ensures none { IfNone result ((n : ℤ) → datum_of_ref value.entry ≢ int n) }
{
    match value {
        ValueRef::Int(n) => Some(n),
        ValueRef::Null | ValueRef::Text(_) | ValueRef::Blob(_) => None,
    }
}

/// The rowid with which an entry ends, behind the values of so many columns.
#[inline]
fn rowid_behind(bytes: &[u8], columns: usize) -> Option<i64>
    ensures found { IfSome result (λ rowid. (values : Row) → IsRecord bytes.now values
        → IsKeyed columns values rowid (take columns values)) }
    ensures none { IfNone result ((values : Row) (rowid : ℤ) (front : Row) → IsRecord bytes.now values → ¬ IsKeyed columns values rowid front) }
{
    let mut fields = FieldReader::new(bytes)?;
    if !fields.skip(columns) {
        return None;
    }
    let last = fields.read()?;
    if fields.skip(1) {
        return None;
    }
    number_of(last)
}

/// Puts the code of the values of so many columns of an entry, which it has, behind others; tells whether they were read.
fn push_columns(code: &mut Vec<u8>, bytes: &[u8], columns: usize) -> Result<bool, AllocError>
    ensures code { IfOk result (λ read. IsTrue read → (values : Row) → IsRecord bytes.now values
        → (code.new.items ≡ code.old.items ++ codes_of (take columns values)) × All IsHeld (take columns values)) }
    ensures none { IfOk result (λ read. IsFalse read → (values : Row) → IsRecord bytes.now values → length values < columns) }
{
    let Some(mut fields) = FieldReader::new(bytes) else {
        return Ok(false);
    };
    for _column in 0..columns {
        let Some(value) = fields.read() else {
            return Ok(false);
        };
        push_value(code, value)?;
    }
    Ok(true)
}

/// Whether an entry is placed in a batch. The buffer is used again.
pub(crate) fn is_placed(
    sought: &SoughtBatch<'_>,
    bytes: &[u8],
    code: &mut Vec<u8>,
) -> Result<bool, AllocError>
    ensures { IfOk result (λ placed. (values : Row) → IsRecord bytes.now values
        → TellsPlaced sought.now.batch.now sought.now.above sought.now.most sought.now.columns placed values) }
{
    let Some(rowid) = rowid_behind(bytes, sought.columns) else {
        return Ok(false);
    };
    if !sought.is_for(rowid) {
        return Ok(true);
    }
    code.clear();
    if !push_columns(code, bytes, sought.columns)? {
        return Ok(false);
    }
    Ok(sought.batch.has(rowid, code.as_slice()))
}
