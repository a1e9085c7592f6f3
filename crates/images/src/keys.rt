//! Values, and keys that are sought in a tree, as they are written.
use anyhow::{Context, Result, anyhow};
use std::alloc::Global;
use values::Value;

/// How a key is sought: by a search that ends at the entries that have its values or after them, or as one entry alone.
#[derive(Clone, Copy, Debug)]
pub enum Way {
    At,
    After,
    Find,
}

/// What is sought: the values of first columns, and how.
#[derive(Drop)]
pub struct SearchKey {
    pub values: Vec<Value>,
    pub way: Way,
}

/// A value by a letter and what follows it: `n` for NULL, `i` and a number, `t` and a text, `b` and the bytes of a blob.
pub fn value_of(alloc: Global, part: &str) -> Result<Value> {
    if let Some(number) = part.strip_prefix("i") {
        return Ok(Value::Int(number.parse().context("no number")?));
    }
    if let Some(text) = part.strip_prefix("t") {
        return Ok(Value::Text(String::from_str(alloc, text)?));
    }
    if let Some(bytes) = part.strip_prefix("b") {
        return Ok(Value::Blob(Vec::from_slice(alloc, bytes.as_bytes())?));
    }
    Ok(Value::Null)
}

/// Which columns of an index descend, by a sign for each.
pub fn directions(alloc: Global, signs: &str) -> Result<Vec<bool>> {
    let mut descends = Vec::new(alloc);
    for sign in signs.bytes() {
        descends.push(sign == b'-')?;
    }
    Ok(descends)
}

/// How a key is sought, by a word.
fn way_of(word: &str) -> Result<Way> {
    match word {
        "at" => Ok(Way::At),
        "after" => Ok(Way::After),
        "find" => Ok(Way::Find),
        _ => Err(anyhow!("no way")),
    }
}

/// What a line asks for: `at`, `after` or `find`, and the values, with tabs between them.
pub fn sought(alloc: Global, line: &str) -> Result<SearchKey> {
    let mut parts = line.split('\t');
    let way = way_of(parts.next().context("no word")?)?;
    let mut values = Vec::new(alloc);
    for part in parts {
        values.push(value_of(alloc, part)?)?;
    }
    Ok(SearchKey { values, way })
}
