//! The rows of a set.
ghost use Rattle.values.specs.Row.{rows_data};
ghost use Rattle.std.specs.Prelude.{◌≡◌, IfOk};

use indexmap::IndexSet;
use std::alloc::{AllocError, Global};
use values::{Row, Value};

/// The rows of a set, in its order.
pub fn rows_of(alloc: Global, set: IndexSet<Row>) -> Result<Vec<Vec<Value>>, AllocError>
    ensures { IfOk result (λ rows. rows_data rows.items ≡ set.keys) }
{
    let mut rows = Vec::new(alloc);
    for row in set {
        rows.push(row.into_values())?;
    }
    Ok(rows)
}
