//! The range of entries that a search gives, and where in the tree it starts and ends.
ghost use Rattle.std.specs.Prelude.{◌≡◌};
ghost use Rattle.std.specs.List.{list_any};
ghost use Rattle.values.specs.Datum.{datum_of};
ghost use Rattle.btree_cursor.specs.key_ranges.Ranges.{behind_values, direction, edge_is_null, first_cut, from_cut, has_null, is_null, last_cut, to_cut};
ghost use Rattle.btree_cursor.specs.key_ranges.View.{cut, edge_option, range};

use values::{Value, ValueRef};

/// The value of a lower or an upper bound, and whether it is one of `>` and `<`, rather than of `>=` and `<=`.
#[derive(Clone, Copy, Debug)]
pub struct Bound<'a> {
    pub value: ValueRef<'a>,
    pub strict: bool,
}

/// What a search asks of an entry: the values of its first columns, and the bounds of the column behind these.
#[derive(Clone, Copy, Debug)]
pub struct KeyRange<'a> {
    pub equal: &'a [Value],
    pub lower: Option<Bound<'a>>,
    pub upper: Option<Bound<'a>>,
}

/// An end of a range among the entries that have its first values: behind those that come before a value of the next
/// column, or before them all where there is no value; and where it says so behind those that agree as well.
#[derive(Clone, Copy, Debug)]
pub struct End<'a> {
    pub value: Option<ValueRef<'a>>,
    pub behind: bool,
}

/// Where a range of a column starts. No upper bound lets a NULL through, so an ascending column starts behind its NULLs.
fn first_end<'a>(descends: bool, lower: Option<Bound<'a>>, upper: Option<Bound<'a>>) -> End<'a>
    ensures { cut result ≡ first_cut descends (edge_option lower.entry) (edge_option upper.entry) }
{
    let first = if descends { upper } else { lower };
    match first {
        Some(bound) => End {
            value: Some(bound.value),
            behind: bound.strict,
        },
        None if !descends && upper.is_some() => End {
            value: Some(ValueRef::Null),
            behind: true,
        },
        None => End {
            value: None,
            behind: false,
        },
    }
}

/// Where it ends. A descending column ends with its NULLs.
fn last_end<'a>(descends: bool, lower: Option<Bound<'a>>, upper: Option<Bound<'a>>) -> End<'a>
    ensures { cut result ≡ last_cut descends (edge_option lower.entry) (edge_option upper.entry) }
{
    let last = if descends { lower } else { upper };
    match last {
        Some(bound) => End {
            value: Some(bound.value),
            behind: !bound.strict,
        },
        None if descends && upper.is_some() => End {
            value: Some(ValueRef::Null),
            behind: false,
        },
        None => End {
            value: None,
            behind: true,
        },
    }
}

/// Whether the column at a place descends; further columns ascend.
pub fn descends_at(descends: &[bool], at: usize) -> bool
    ensures { result ≡ direction descends.now at }
{
    descends.get(at).copied().unwrap_or(false)
}

/// Whether a value is NULL.
fn is_null_value(value: &Value) -> bool
    ensures { result ≡ is_null (datum_of value.now) }
{
    matches!(value, Value::Null)
}

/// Whether one of several values is.
fn any_null(values: &[Value]) -> bool
    ensures { result ≡ list_any (λ value. is_null (datum_of value)) values.now }
{
    values.iter().any(|value| is_null_value(value))
}

/// Whether the value of a bound is NULL.
fn is_null_bound(bound: Option<Bound<'_>>) -> bool
    ensures { result ≡ edge_is_null (edge_option bound.entry) }
{
    match bound {
        Some(bound) => bound.value == ValueRef::Null,
        None => false,
    }
}

impl<'a> KeyRange<'a> {
    /// Whether a bound is NULL. No entry meets such a range, so that there is nothing to seek.
    #[tactic(auto, using(crate::proofs::lemmas::key_ranges::NullLemmas::any_null_datum))]
    pub fn has_null(&self) -> bool
        ensures { result ≡ has_null (range self.now) }
    {
        any_null(self.equal) || is_null_bound(self.lower) || is_null_bound(self.upper)
    }

    /// Behind which entries the range starts, in a tree whose columns descend or don't.
    pub fn start(&self, descends: &[bool]) -> End<'a>
        ensures { behind_values (range self.now).equal (cut result) ≡ from_cut descends.now (range self.now) }
    {
        first_end(
            descends_at(descends, self.equal.len()),
            self.lower,
            self.upper,
        )
    }

    /// Behind which entries it ends.
    pub fn end(&self, descends: &[bool]) -> End<'a>
        ensures { behind_values (range self.now).equal (cut result) ≡ to_cut descends.now (range self.now) }
    {
        last_end(
            descends_at(descends, self.equal.len()),
            self.lower,
            self.upper,
        )
    }
}
