//! The bounds of a range, as they are written.
use crate::keys::value_of;
use anyhow::{Context, Result, anyhow};
use records_searches::{BoundKind, RangeShape, RangeValues};
use std::alloc::Global;
use values::Value;

/// A tree by its name, and a range of it.
#[derive(Drop)]
pub struct Search {
    pub tree: String,
    pub range: RangeValues,
}

/// The bounds of a line, one by one.
#[derive(Drop)]
struct Parts {
    equal: Vec<Value>,
    lower: Option<(BoundKind, Value)>,
    upper: Option<(BoundKind, Value)>,
}

impl Parts {
    /// Takes one more bound: a sign and a value.
    fn put(&mut self, sign: &str, value: Value) -> Result<()> {
        match sign {
            "=" => self.equal.push(value)?,
            ">" => self.lower = Some((BoundKind::Strict, value)),
            ">=" => self.lower = Some((BoundKind::Inclusive, value)),
            "<" => self.upper = Some((BoundKind::Strict, value)),
            "<=" => self.upper = Some((BoundKind::Inclusive, value)),
            _ => return Err(anyhow!("no sign")),
        }
        Ok(())
    }

    /// Which bounds there are.
    fn shape(&self) -> RangeShape {
        RangeShape {
            equal: self.equal.len(),
            lower: self.lower.as_ref().map(|bound| bound.0),
            upper: self.upper.as_ref().map(|bound| bound.0),
        }
    }

    /// The range that they make.
    fn range(&self, alloc: Global) -> Result<RangeValues> {
        let mut range = RangeValues::new(alloc, self.shape())?;
        for (at, value) in self.equal.iter().enumerate() {
            if at < range.key_range().equal.len() {
                range.set_equal(alloc, at, value.as_ref())?;
            }
        }
        if let Some((_, value)) = &self.lower {
            range.set_lower(alloc, value.as_ref())?;
        }
        if let Some((_, value)) = &self.upper {
            range.set_upper(alloc, value.as_ref())?;
        }
        Ok(range)
    }
}

/// What a line asks for: the name of a tree, and after tabs a sign and a value for each bound.
pub fn search_of(alloc: Global, line: &str) -> Result<Search> {
    let mut words = line.split('\t');
    let tree = String::from_str(alloc, words.next().context("no tree")?)?;
    let mut parts = Parts {
        equal: Vec::new(alloc),
        lower: None,
        upper: None,
    };
    let mut sign = None;
    for word in words {
        match sign.take() {
            None => sign = Some(word),
            Some(sign) => parts.put(sign, value_of(alloc, word)?)?,
        }
    }
    if sign.is_some() {
        return Err(anyhow!("no value"));
    }
    Ok(Search {
        tree,
        range: parts.range(alloc)?,
    })
}
