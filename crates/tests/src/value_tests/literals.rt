//! Values as SQL text, faults as lines, and the order of values and of rows.
use scripted::ScriptSink;
use std::alloc::{AllocError, Global};
use std::collections::HashMap;
use std::test::Fail;
use values::{Fault, MemSink, Row, Value, ValueRef, compare, write_literal};

/// What `SELECT quote(..)` of SQLite prints.
const LITERALS: [(ValueRef<'static>, &str); 10] = [
    (ValueRef::Null, "NULL"),
    (ValueRef::Int(0), "0"),
    (ValueRef::Int(i64::MIN), "-9223372036854775808"),
    (ValueRef::Int(i64::MAX), "9223372036854775807"),
    (ValueRef::Text(""), "''"),
    (ValueRef::Text("bolt"), "'bolt'"),
    (ValueRef::Text("it's"), "'it''s'"),
    (ValueRef::Text("''"), "''''''"),
    (ValueRef::Blob(b""), "X''"),
    (ValueRef::Blob(&[0x0a, 0xff, 0x90, 0x09]), "X'0AFF9009'"),
];

/// Texts, and how many of their bytes are quotes.
const QUOTES: [(&str, u64); 4] = [("bolt", 0), ("it's", 1), ("''a''", 4), ("'a'", 2)];

/// Whether a value is written as this literal, owned and borrowed, and whether a copy of it is the same value.
fn is_written(alloc: Global, value: ValueRef<'_>, literal: &str) -> Result<bool, Fail> {
    let copy = value.to_value(alloc)?;
    let mut out = MemSink::new(alloc);
    write_literal(&copy, &mut out)?;
    let mut narrow = ScriptSink::in_steps(alloc, 1, 100);
    value.write_literal(&mut narrow)?;
    let written = (out.as_slice(), narrow.as_slice());
    Ok(written == (literal.as_bytes(), literal.as_bytes()) && is_copied(&copy, value)?)
}

fn is_copied(copy: &Value, value: ValueRef<'_>) -> Result<bool, Fail> {
    let again = copy.clone()?;
    Ok(
        copy.as_ref() == value
            && again == *copy
            && compare(&again, copy).is_eq()
            && copy.ty() == value.ty(),
    )
}

/// In how many pieces a text is written.
fn count_pieces(alloc: Global, text: &str) -> Result<u64, Fail> {
    let mut out = ScriptSink::new(alloc, 100);
    ValueRef::Text(text).write_literal(&mut out)?;
    Ok(out.calls())
}

#[test]
fn literals(rt: HostRuntime) -> Result<(), Fail> {
    for (value, literal) in LITERALS {
        assert!(rt; is_written(rt.alloc(), value, literal)?, "{literal}");
    }
    for (text, quotes) in QUOTES {
        assert!(rt; count_pieces(rt.alloc(), text)? <= quotes + 3, "{text}");
    }
    Ok(())
}

/// Whether a fault is written as this line, and a sink with room for three bytes of it is told of.
fn is_line(alloc: Global, fault: &Fault, line: &str) -> Result<bool, Fail> {
    let mut out = MemSink::new(alloc);
    fault.write_line(&mut out)?;
    let mut narrow = ScriptSink::new(alloc, 3);
    let cut = fault.write_line(&mut narrow);
    Ok(out.as_slice() == line.as_bytes() && cut == Err(Fault::WriteFailed))
}

#[test]
fn fault_lines(rt: HostRuntime) -> Result<(), Fail> {
    let name = String::from_str(rt.alloc(), "it\u{1b}\n\u{85}\u{7f}em")?;
    let rows = [
        (Fault::ShortFile, "fault 1: ShortFile\n"),
        (Fault::PageUse(7), "fault 13: PageUse 7\n"),
        (Fault::SchemaText(name), "fault 21: SchemaText it????em\n"),
        (Fault::Syntax(9), "fault 30: Syntax 9\n"),
        (Fault::NotYet, "fault 29: NotYet\n"),
        (Fault::TooManyStatements, "fault 55: TooManyStatements\n"),
    ];
    for (fault, line) in &rows {
        assert!(rt; is_line(rt.alloc(), fault, line)?, "{line}");
    }
    Ok(())
}

/// Each is less than those behind it. (Datatypes In SQLite, section 4.1)
const ASCENDING: [ValueRef<'static>; 9] = [
    ValueRef::Null,
    ValueRef::Int(-3),
    ValueRef::Int(2),
    ValueRef::Text(""),
    ValueRef::Text("Z"),
    ValueRef::Text("a"),
    ValueRef::Text("aa"),
    ValueRef::Blob(b""),
    ValueRef::Blob(b"Z"),
];

/// Whether a value stands to the others, owned and borrowed, as its place in the order says.
fn is_at(alloc: Global, place: usize, value: ValueRef<'_>) -> Result<bool, Fail> {
    let low = value.to_value(alloc)?;
    for (i, other) in ASCENDING.iter().enumerate() {
        let high = other.to_value(alloc)?;
        if compare(&low, &high) != place.cmp(&i) || value.cmp(other) != place.cmp(&i) {
            return Ok(false);
        }
    }
    Ok(true)
}

fn row(alloc: Global, (name, number): (&str, i64)) -> Result<Row, AllocError> {
    let mut row = Row::with_capacity(alloc, 2)?;
    row.push(ValueRef::Text(name).to_value(alloc)?)?;
    row.push(Value::Int(number))?;
    Ok(row)
}

/// How often each of these rows stands in a list of four.
fn count_rows(alloc: Global) -> Result<HashMap<Row, u32>, AllocError> {
    let mut counts = HashMap::new(alloc);
    for pair in [("nut", 7), ("cap", 7), ("nut", 7), ("nut", 8)] {
        let count = counts.entry(row(alloc, pair)?)?.or_insert(0u32);
        *count = count.wrapping_add(1);
    }
    Ok(counts)
}

/// Whether a row of two values gives them in each of the ways that there are.
fn has_values(alloc: Global, (name, number): (&str, i64)) -> Result<bool, AllocError> {
    let whole = row(alloc, (name, number))?;
    let again = Row::from(whole.clone()?.into_values());
    if again != whole || whole.len() != 2 || whole.as_slice().len() != 2 {
        return Ok(false);
    }
    let values = (whole.value(0).as_ref(), whole.value(1).as_ref());
    Ok(values == (ValueRef::Text(name), ValueRef::Int(number)))
}

#[test]
fn order(rt: HostRuntime) -> Result<(), Fail> {
    let alloc = rt.alloc();
    for (place, value) in ASCENDING.iter().enumerate() {
        assert!(rt; is_at(alloc, place, *value)?, "{value:?}");
    }
    let counts = count_rows(alloc)?;
    let nut = row(alloc, ("nut", 7))?;
    assert_eq!(rt; (counts.len(), counts.get(&nut).copied()), (3, Some(2)));
    assert!(rt; row(alloc, ("cap", 9))? < nut && nut < row(alloc, ("nut", 8))?);
    assert!(rt; Row::new(alloc).is_empty() && Row::new(alloc) < nut);
    assert!(rt; has_values(alloc, ("nut", 7))?);
    Ok(())
}
