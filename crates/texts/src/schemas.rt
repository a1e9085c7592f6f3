//! Rows of schemas as lines write them: the five values of a row with tabs between them, and nothing for NULL.
use anyhow::{Context, Result};
use std::alloc::Global;
use values::{Row, Value};

/// The place of the root in a row of the schema. (The Schema Table)
const ROOT: usize = 3;

/// The value that a part of a line writes, at this place of a row.
fn value_of(alloc: Global, place: usize, part: &str) -> Result<Value> {
    if part.is_empty() {
        return Ok(Value::Null);
    }
    if place == ROOT {
        let number: i64 = part.parse().context("no number")?;
        return Ok(Value::Int(number));
    }
    Ok(Value::Text(String::from_str(alloc, part)?))
}

/// The row that a line writes.
pub fn row_of(alloc: Global, line: &str) -> Result<Row> {
    let mut row = Row::new(alloc);
    for (place, part) in line.split('\t').enumerate() {
        row.push(value_of(alloc, place, part)?)?;
    }
    Ok(row)
}
