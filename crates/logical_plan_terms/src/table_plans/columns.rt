//! The columns of tables side by side.
ghost use Rattle.std.specs.Prelude.{◌≡◌, ◌+◌, ◌-◌, ◌<◌, ◌≤◌, IfOk, MatchOption, length, map, take};
ghost use Rattle.semantics.specs.Query.{from_width};
ghost use Rattle.logical_plan_terms.specs.table_plans.Input.{from_of};
ghost use Rattle.logical_plan_terms.specs.table_plans.Parted.{columns_from};

use crate::table_plans::inputs::JoinedTable;
use std::alloc::{AllocError, Global};

/// The place of a column behind these tables, if it is none of theirs.
pub(crate) fn place_behind(tables: &[JoinedTable], column: usize) -> Option<usize>
    ensures { MatchOption result (column < from_width (from_of tables.now)) (λ place. column ≡ from_width (from_of tables.now) + place) }
{
    let mut place = column;
    for table in tables {
        if place < table.width {
            return None;
        }
        place -= table.width;
    }
    Some(place)
}

/// Of these columns those that stand behind these tables, as columns of what stands there.
pub(crate) fn columns_behind(
    alloc: Global,
    tables: &[JoinedTable],
    read: &[usize],
) -> Result<Vec<usize>, AllocError>
    ensures { IfOk result (λ columns. map (λ c. from_width (from_of tables.now) + c) columns.items ≡ columns_from (from_width (from_of tables.now)) read.now) }
{
    let mut columns = Vec::new(alloc);
    for column in read {
        if let Some(place) = place_behind(tables, *column) {
            columns.push(place)?;
        }
    }
    Ok(columns)
}

/// The columns that are read before the last so many of them.
pub(crate) fn columns_left(read: &[usize], last: usize) -> &[usize]
    requires { last ≤ length read.now }
    ensures { result.now ≡ take (length read.now - last) read.now }
{
    &read[..read.len() - last]
}
