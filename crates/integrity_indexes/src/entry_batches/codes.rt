//! The code of values.
ghost use Rattle.std.specs.Prelude.{◌≡◌, ◌++◌, ◌≤◌, length, take, OnOk};
ghost use Rattle.values.specs.Datum.{datum_of_ref};
ghost use Rattle.integrity_indexes.specs.entry_batches.Codes.{IsHeld, code_of, number_code, trimmed};

use std::alloc::AllocError;
use values::ValueRef;

/// How many bytes stand before those at the end that are 0.
#[inline]
fn significant(bytes: &[u8]) -> usize
    ensures most { result ≤ length bytes.now }
    ensures trimmed { trimmed bytes.now ≡ take result bytes.now }
{
    let mut size = bytes.len();
    while size > 0 && bytes[size - 1] == 0 {
        size -= 1;
    }
    size
}

/// Puts a number behind others: its bytes up to the last that isn't 0, the least first, after a byte that tells the kind and how
/// many they are.
fn push_number(code: &mut Vec<u8>, kind: u8, number: u64) -> Result<(), AllocError>
    requires { kind ≤ 247 }
    ensures { OnOk result (code.new.items ≡ code.old.items ++ number_code kind number) }
{
    let bytes = number.to_le_bytes();
    let size = significant(&bytes);
    code.push(kind + size as u8)?;
    code.extend_from_slice(&bytes[..size])?;
    Ok(())
}

/// Puts bytes behind others, after their kind and their length.
fn push_bytes(code: &mut Vec<u8>, kind: u8, bytes: &[u8]) -> Result<(), AllocError>
    requires { kind ≤ 247 }
    ensures { OnOk result (code.new.items ≡ code.old.items ++ number_code kind (length bytes.now) ++ bytes.now) }
{
    push_number(code, kind, bytes.len() as u64)?;
    code.extend_from_slice(bytes)?;
    Ok(())
}

/// Puts the code of a value behind those of others. After an error it is a part of it.
pub fn push_value(code: &mut Vec<u8>, value: ValueRef<'_>) -> Result<(), AllocError>
    ensures code { OnOk result (code.new.items ≡ code.old.items ++ code_of (datum_of_ref value.entry)) }
    ensures held { OnOk result (IsHeld (datum_of_ref value.entry)) }
{
    match value {
        ValueRef::Null => code.push(0)?,
        ValueRef::Int(n) => push_number(code, 1, n.cast_unsigned())?,
        ValueRef::Text(text) => push_bytes(code, 10, text.as_bytes())?,
        ValueRef::Blob(bytes) => push_bytes(code, 19, bytes)?,
    }
    Ok(())
}
