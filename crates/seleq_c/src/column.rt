//! A value, as C sees it.
ghost use Rattle.values.specs.Datum.{datum_of_ref};
ghost use Rattle.seleq_c.specs.Shown.{IsShown};

use values::ValueRef;

/// A value that lies in an image, until the next call on that.
#[repr(C)]
#[derive(Drop)]
pub struct Column<'a> {
    /// 0 NULL, 1 a whole number, 2 a text, 3 a blob.
    pub kind: u8,
    /// The whole number, else 0.
    pub number: i64,
    /// The bytes of a text or a blob, else none.
    pub bytes: &'a [u8],
}

/// A value as C sees it.
pub(crate) fn shown(value: ValueRef<'_>) -> Column<'_>
    ensures { IsShown result (datum_of_ref value.entry) }
{
    match value {
        ValueRef::Null => Column {
            kind: 0,
            number: 0,
            bytes: b"",
        },
        ValueRef::Int(number) => Column {
            kind: 1,
            number,
            bytes: b"",
        },
        ValueRef::Text(text) => Column {
            kind: 2,
            number: 0,
            bytes: text.as_bytes(),
        },
        ValueRef::Blob(bytes) => Column {
            kind: 3,
            number: 0,
            bytes,
        },
    }
}
