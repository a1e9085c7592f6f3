//! Rows of which each is given once.
ghost use Rattle.std.specs.Prelude.{◌≡◌, ◌≢◌, ◌∷◌, [], IfOk, IsFalse, IsTrue, List, OnOk, Some, map};
ghost use Rattle.values.specs.Datum.{Datum, datum_of};
ghost use Rattle.operators_results.specs.Slices.{sliced};
ghost use Rattle.operators_results.specs.distinct_results.Firsts.{firsts, to_come};

use crate::LimitOffset;
use indexmap::IndexSet;
use std::alloc::{AllocError, Global};
use values::{Row, Value};

/// The rows that were met, each once, and how many new ones LIMIT and OFFSET still pass over and leave. (SELECT, "Removal of
/// duplicate rows (DISTINCT processing)")
#[derive(Drop)]
pub(crate) struct FirstRows {
    met: IndexSet<Row>,
    slice: LimitOffset,
}

/// Puts copies of these values into `out`, in place of what it holds.
fn copy_values(alloc: Global, row: &[Value], out: &mut Vec<Value>) -> Result<(), AllocError>
    ensures { OnOk result (map datum_of out.new.items ≡ map datum_of row.now) }
{
    out.clear();
    for value in row {
        let copied = value.as_ref().to_value(alloc)?;
        out.push(copied)?;
    }
    Ok(())
}

impl FirstRows {
    /// No row was met.
    pub(crate) fn new(alloc: Global, slice: LimitOffset) -> FirstRows
        ensures { (rows : List (List Datum)) → to_come result rows ≡ sliced slice (firsts rows) }
    {
        FirstRows {
            met: IndexSet::new(alloc),
            slice,
        }
    }

    /// Whether no further row is given, whatever comes.
    pub(crate) fn is_done(&self) -> bool
        ensures done { IsTrue result → (rows : List (List Datum)) → to_come self.now rows ≡ [] }
        ensures more { IsFalse result → self.now.slice.left ≢ Some 0 }
    {
        self.slice.is_done()
    }

    /// Meets a row, and tells whether it is given: it is new, and LIMIT and OFFSET leave it. Then `out` holds its values. Of a row
    /// that was met `out` keeps the memory.
    pub(crate) fn meet(
        &mut self,
        alloc: Global,
        row: Row,
        out: &mut Vec<Value>,
    ) -> Result<bool, AllocError>
        ensures out { IfOk result (λ given. IsTrue given → map datum_of out.new.items ≡ row) }
        ensures given { IfOk result (λ given. IsTrue given → (rows : List (List Datum)) → to_come self.old (row ∷ rows) ≡ row ∷ to_come self.new rows) }
        ensures passed { IfOk result (λ given. IsFalse given → (rows : List (List Datum)) → to_come self.old (row ∷ rows) ≡ to_come self.new rows) }
    {
        if self.met.contains(&row) {
            *out = row.into_values();
            return Ok(false);
        }
        if !self.slice.gives() {
            self.met.insert(row)?;
            return Ok(false);
        }
        copy_values(alloc, row.as_slice(), out)?;
        self.met.insert(row)?;
        Ok(true)
    }
}
