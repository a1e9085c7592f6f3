//! Rows that were gathered, and which of them are still to be given.
ghost use Rattle.std.specs.Prelude.{◌≡◌, ◌<◌, ◌^◌, IfOk, IsTrue, OnSome, length, map};
ghost use Rattle.values.specs.Datum.{datum_of};
ghost use Rattle.values.specs.Row.{rows_data};
ghost use Rattle.semantics.specs.OneTable.{shown};
ghost use Rattle.semantics.specs.Sequence.{value_at};
ghost use Rattle.operators.specs.Left.{GivesFirst, TakesFirstOut};

use std::alloc::{AllocError, Global};
use std::marker::Model;
use std::vec::IntoIter;
use values::Value;

/// Materialized rows that are given one by one, in their order.
#[derive(Drop)]
pub struct GatheredRows {
    rows: IntoIter<Vec<Value>>,
}

impl Model for GatheredRows {
    ghost use Rattle.std.specs.Prelude.{List};
    ghost use Rattle.std.specs.Vec.Iter.{into_iter_items};
    ghost use Rattle.values.specs.Row.{Row, rows_data};

    ghost Value = { List Row };

    ghost view = { λ g. rows_data (into_iter_items g.rows) };
}

impl GatheredRows {
    /// These rows, before the first.
    pub fn new(rows: Vec<Vec<Value>>) -> GatheredRows
        ensures rows { result ≡ rows_data rows.items }
        ensures count { length result ≡ length rows.items }
        ensures few { length result < 2 ^ 64 }
    {
        GatheredRows {
            rows: rows.into_iter(),
        }
    }

    /// Takes the next row out, or reports that there is none.
    pub fn take(&mut self) -> Option<Vec<Value>>
        ensures rows { TakesFirstOut result self.old self.new }
        ensures left { OnSome result (length self.new < length self.old) }
    {
        self.rows.next()
    }

    /// Puts the next row into `row`, or reports that there is none.
    pub fn next(&mut self, row: &mut Vec<Value>) -> bool
        ensures rows { GivesFirst result self.old self.new (map datum_of row.new.items) }
        ensures left { IsTrue result → length self.new < length self.old }
    {
        match self.take() {
            Some(next) => {
                *row = next;
                true
            }
            None => false,
        }
    }
}

/// A copy of the value at a place of a row, and NULL past its end.
fn value_copy(alloc: Global, row: &[Value], at: usize) -> Result<Value, AllocError>
    ensures { IfOk result (λ value. datum_of value ≡ value_at (map datum_of row.now) at) }
{
    match row.get(at) {
        Some(value) => value.as_ref().to_value(alloc),
        None => Ok(Value::Null),
    }
}

/// Copies of the values of a row at these places, in their order, with room for this many more values.
pub(crate) fn row_copy(
    alloc: Global,
    row: &[Value],
    places: &[usize],
    more: usize,
) -> Result<Vec<Value>, AllocError>
    ensures { IfOk result (λ copied. map datum_of copied.items ≡ shown places.now (map datum_of row.now)) }
{
    let mut copied = Vec::with_capacity(alloc, places.len().saturating_add(more))?;
    for at in places {
        copied.push(value_copy(alloc, row, *at)?)?;
    }
    Ok(copied)
}
