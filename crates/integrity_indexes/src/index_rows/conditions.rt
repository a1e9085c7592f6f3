//! Which rows of a table have an entry in an index with a condition.
ghost use Rattle.std.specs.Prelude.{◌≡◌, IfOk, Some, map, option_map};
ghost use Rattle.values.specs.Datum.{datum_of};
ghost use Rattle.expr.specs.View.{term};
ghost use Rattle.integrity_indexes.specs.index_rows.Kept.{keeps_row};

use expr::{Expr, is_true};
use records_tables::RowView;
use std::alloc::{AllocError, Global};
use values::{Fault, Value};

/// Whether a condition is true of a row of these values.
fn is_met(alloc: Global, condition: &Expr, row: &[Value]) -> Result<bool, AllocError>
    ensures { IfOk result (λ met. met ≡ keeps_row (Some (term condition.now)) (map datum_of row.now)) }
{
    match is_true(alloc, condition, row) {
        Ok(met) => Ok(met),
        Err(Fault::Overflow) => Ok(false),
        Err(_) => Err(AllocError),
    }
}

/// Whether a row of these values has an entry in an index that has this condition, if it has one.
pub(crate) fn keeps(
    alloc: Global,
    condition: Option<&Expr>,
    row: &[Value],
) -> Result<bool, AllocError>
    ensures { IfOk result (λ kept. kept ≡ keeps_row (option_map (λ e. term e.now) condition.entry) (map datum_of row.now)) }
{
    match condition {
        Some(condition) => is_met(alloc, condition, row),
        None => Ok(true),
    }
}

/// Whether a row has an entry in an index that has this condition, if it has one. (Partial Indexes)
pub fn is_kept(
    alloc: Global,
    condition: Option<&Expr>,
    row: &RowView<'_>,
) -> Result<bool, AllocError>
    ensures { IfOk result (λ kept. kept ≡ keeps_row (option_map (λ e. term e.now) condition.entry) row.now) }
{
    let Some(condition) = condition else {
        return Ok(true);
    };
    let values = row.to_row(alloc)?;
    is_met(alloc, condition, values.as_slice())
}
