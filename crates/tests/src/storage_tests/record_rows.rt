//! Varints and records. (Database File Format, sections 1.6 and 2.1)
use records::{FieldReader, RecordFault, RecordView, varint};
use std::alloc::Global;
use values::ValueRef;

/// Bytes, and the varint with which they begin.
const VARINTS: [(&[u8], Option<(i64, usize)>); 9] = [
    (&[0x81, 0x00], Some((128, 2))),
    (&[0x80, 0x01], Some((1, 2))),
    (&[0x81, 0x80, 0x00], Some((16_384, 3))),
    (&[0xff; 9], Some((-1, 9))),
    (&[0x81], None),
    (&[], None),
    // What follows a varint is not read.
    (&[0x7f, 0xff], Some((127, 1))),
    (&[0xff, 0xff, 0x7f, 0xff], Some((2_097_151, 3))),
    // The first of the 64 bits is the sign.
    (
        &[0xc0, 0x80, 0x80, 0x80, 0x80, 0x80, 0x80, 0x80, 0x00],
        Some((i64::MIN, 9)),
    ),
];

/// Records, and their values.
const RECORDS: [(&[u8], &[ValueRef<'static>]); 12] = [
    (
        &[0x03, 0x01, 0x13, 0x2a, 0x61, 0x62, 0x63],
        &[ValueRef::Int(42), ValueRef::Text("abc")],
    ),
    (&[0x03, 0x08, 0x09], &[ValueRef::Int(0), ValueRef::Int(1)]),
    (&[0x01], &[]),
    (
        &[0x04, 0x00, 0x0c, 0x0d],
        &[ValueRef::Null, ValueRef::Blob(&[]), ValueRef::Text("")],
    ),
    (&[0x02, 0x10, 0x00, 0xff], &[ValueRef::Blob(&[0x00, 0xff])]),
    // Integers of each size.
    (&[0x02, 0x01, 0x80], &[ValueRef::Int(-128)]),
    (&[0x02, 0x02, 0x01, 0x00], &[ValueRef::Int(256)]),
    (&[0x02, 0x03, 0xff, 0x00, 0x00], &[ValueRef::Int(-65_536)]),
    (
        &[0x02, 0x04, 0x7f, 0xff, 0xff, 0xff],
        &[ValueRef::Int(2_147_483_647)],
    ),
    (
        &[0x02, 0x05, 0xff, 0xff, 0xff, 0xff, 0xff, 0xfe],
        &[ValueRef::Int(-2)],
    ),
    (
        &[0x02, 0x06, 0x80, 0x00, 0x00, 0x00, 0x00, 0x00, 0x00, 0x00],
        &[ValueRef::Int(i64::MIN)],
    ),
    // More types and fields than lie in the vectors themselves.
    (&MANY_NULLS, &[ValueRef::Null; 20]),
];

/// A header of twenty values.
const MANY_NULLS: [u8; 21] = [
    21, 0, 0, 0, 0, 0, 0, 0, 0, 0, 0, 0, 0, 0, 0, 0, 0, 0, 0, 0, 0,
];

/// Bytes that are no record, and why.
const BROKEN: [(&[u8], RecordFault); 9] = [
    (&[], RecordFault::Bad),
    (&[0x81], RecordFault::Bad),
    (&[0x00], RecordFault::Bad),
    (&[0x03, 0x01], RecordFault::Bad),
    (&[0x03, 0x01, 0x13, 0x2a, 0x61, 0x62], RecordFault::Bad),
    (&[0x02, 0x0a], RecordFault::Bad),
    (
        &[0x0a, 0xff, 0xff, 0xff, 0xff, 0xff, 0xff, 0xff, 0xff, 0xff],
        RecordFault::Bad,
    ),
    (
        &[0x02, 0x07, 0x3f, 0xf0, 0x00, 0x00, 0x00, 0x00, 0x00, 0x00],
        RecordFault::Float,
    ),
    (&[0x02, 0x0f, 0xff], RecordFault::Text),
];

/// Whether bytes are a record of these values.
fn is_record(alloc: Global, bytes: &[u8], values: &[ValueRef<'_>]) -> bool {
    match RecordView::read(alloc, bytes) {
        Ok(view) if view.count() == values.len() => has_fields(&view, values),
        _ => false,
    }
}

fn has_fields(view: &RecordView<'_>, values: &[ValueRef<'_>]) -> bool {
    for (index, value) in values.iter().enumerate() {
        if index >= view.count() || view.field(index) != *value {
            return false;
        }
    }
    true
}

/// The first row of `VARINTS` that isn't so.
fn wrong_varint() -> Option<usize> {
    for (row, (bytes, wanted)) in VARINTS.iter().enumerate() {
        if varint(bytes) != *wanted {
            return Some(row);
        }
    }
    None
}

/// The first row of `RECORDS` that isn't so.
fn wrong_record(alloc: Global) -> Option<usize> {
    for (row, (bytes, values)) in RECORDS.iter().enumerate() {
        if !is_record(alloc, bytes, values) {
            return Some(row);
        }
    }
    None
}

/// The first row of `BROKEN` that isn't so.
fn wrong_fault(alloc: Global) -> Option<usize> {
    for (row, (bytes, wanted)) in BROKEN.iter().enumerate() {
        if RecordView::read(alloc, bytes).err() != Some(*wanted) {
            return Some(row);
        }
    }
    None
}

#[test]
fn records(rt: HostRuntime) {
    assert_eq!(rt; wrong_varint(), None);
    assert_eq!(rt; wrong_record(rt.alloc()), None);
    assert_eq!(rt; wrong_fault(rt.alloc()), None);
}

/// What is asked of a reader of fields.
#[derive(Clone, Copy)]
enum Step {
    /// A field, which is this value, or none.
    Read(Option<ValueRef<'static>>),
    /// To pass so many fields, which there are or not.
    Skip(usize, bool),
    /// Whether the record has no more fields.
    Done(bool),
}

/// A number, a text of three bytes, 0 and NULL.
const FOUR: &[u8] = &[0x05, 0x01, 0x13, 0x08, 0x00, 0x2a, 0x61, 0x62, 0x63];

/// The second is a text that isn't UTF-8, which only a look at it shows.
const BAD_TEXT: &[u8] = &[0x04, 0x02, 0x0f, 0x01, 0x01, 0x00, 0xff, 0x07];

/// Records, and steps of reading them.
const READINGS: [(&[u8], &[Step]); 4] = [
    (
        FOUR,
        &[
            Step::Read(Some(ValueRef::Int(42))),
            Step::Read(Some(ValueRef::Text("abc"))),
            Step::Done(false),
            Step::Skip(1, true),
            Step::Read(Some(ValueRef::Null)),
            Step::Done(true),
            Step::Read(None),
            Step::Skip(0, true),
            Step::Skip(1, false),
        ],
    ),
    (
        BAD_TEXT,
        &[Step::Skip(2, true), Step::Read(Some(ValueRef::Int(7)))],
    ),
    (BAD_TEXT, &[Step::Skip(1, true), Step::Read(None)]),
    (BAD_TEXT, &[Step::Skip(4, false)]),
];

/// Whether a reader answers a step as it says.
fn answers(reader: &mut FieldReader<'_>, step: Step) -> bool {
    match step {
        Step::Read(value) => reader.read() == value,
        Step::Skip(count, passed) => reader.skip(count) == passed,
        Step::Done(done) => reader.is_done() == done,
    }
}

/// Whether a reader of these bytes answers each step as it says.
fn answers_all(bytes: &[u8], steps: &[Step]) -> bool {
    let Some(mut reader) = FieldReader::new(bytes) else {
        return false;
    };
    for step in steps {
        if !answers(&mut reader, *step) {
            return false;
        }
    }
    true
}

/// The first row of `READINGS` that isn't so.
fn wrong_reading() -> Option<usize> {
    for (row, (bytes, steps)) in READINGS.iter().enumerate() {
        if !answers_all(bytes, steps) {
            return Some(row);
        }
    }
    None
}

#[test]
fn single_fields(rt: HostRuntime) {
    assert_eq!(rt; wrong_reading(), None);
    assert!(rt; FieldReader::new(&[0x02]).is_none());
}
