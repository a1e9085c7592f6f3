//! Rows as lines of text.
use explain::{row_text, rows_text};
use scripted::ScriptSink;
use std::alloc::{AllocError, Global};
use std::test::Fail;
use values::{Fault, MemSink, Row, ValueRef};

/// Rows, and what `SELECT quote(..) || ',' || quote(..)` of SQLite prints of them, with a line feed; a header is a row of
/// texts.
const LINES: [(&[ValueRef<'static>], &str); 7] = [
    (&[], "\n"),
    (&[ValueRef::Int(40), ValueRef::Int(1)], "40,1\n"),
    (&[ValueRef::Null, ValueRef::Int(-2)], "NULL,-2\n"),
    (
        &[
            ValueRef::Text("616263"),
            ValueRef::Int(1),
            ValueRef::Blob(&[0x0a, 0xff]),
            ValueRef::Text("it's"),
        ],
        "'616263',1,X'0AFF','it''s'\n",
    ),
    (
        &[ValueRef::Text("it's,\n'"), ValueRef::Blob(&[0x0a, 0xff])],
        "'it''s,\n''',X'0AFF'\n",
    ),
    (&[ValueRef::Int(i64::MIN)], "-9223372036854775808\n"),
    (
        &[ValueRef::Text("qty"), ValueRef::Text("id")],
        "'qty','id'\n",
    ),
];

/// The rows of the table, and their text.
fn all_rows(alloc: Global) -> Result<(Vec<Row>, String), AllocError> {
    let (mut rows, mut text) = (Vec::new(alloc), String::new(alloc));
    for (values, line) in LINES {
        let mut row = Row::new(alloc);
        for value in values {
            row.push(value.to_value(alloc)?)?;
        }
        rows.push(row)?;
        text.push_str(line)?;
    }
    Ok((rows, text))
}

#[test]
fn lines(rt: HostRuntime) -> Result<(), Fail> {
    for (values, line) in LINES {
        let mut out = MemSink::new(rt.alloc());
        row_text(values, &mut out)?;
        assert!(rt; out.as_slice() == line.as_bytes(), "{line}");
    }
    let (rows, text) = all_rows(rt.alloc())?;
    let mut out = MemSink::new(rt.alloc());
    rows_text(rows.as_slice(), &mut out)?;
    rows_text(&[], &mut out)?;
    assert!(rt; out.as_slice() == text.as_bytes());
    Ok(())
}

#[test]
fn lines_cut_short(rt: HostRuntime) -> Result<(), Fail> {
    let (rows, text) = all_rows(rt.alloc())?;
    let text = text.as_bytes();
    for room in 0..text.len() + 1 {
        let mut out = ScriptSink::new(rt.alloc(), room);
        let written = rows_text(rows.as_slice(), &mut out);
        let cut = room < text.len();
        let wanted = if cut { Err(Fault::WriteFailed) } else { Ok(()) };
        assert_eq!(rt; (written, out.failures()), (wanted, u64::from(cut)));
        assert!(rt; out.as_slice() == &text[..room], "room {room}");
    }
    Ok(())
}
