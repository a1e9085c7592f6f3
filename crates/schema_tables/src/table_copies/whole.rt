//! The tables that queries are run over.
ghost use Rattle.std.specs.Prelude.{◌≡◌, IfOk};
ghost use Rattle.schema_tables.specs.table_copies.Whole.{all_tables};

use crate::Table;
use crate::table_copies::copies::copy_table;
use std::alloc::{AllocError, Global};

/// Copies of these tables, and behind them the table in which each object of the schema has a row. (The Schema Table)
pub fn with_schema_table(alloc: Global, tables: &[Table]) -> Result<Vec<Table>, AllocError>
    ensures { IfOk result (λ all. all.items ≡ all_tables tables.now) }
{
    let mut all = Vec::with_capacity(alloc, tables.len().saturating_add(1))?;
    for table in tables {
        let copy = copy_table(alloc, table)?;
        all.push(copy)?;
    }
    let schema = Table::schema(alloc)?;
    all.push(schema)?;
    Ok(all)
}
