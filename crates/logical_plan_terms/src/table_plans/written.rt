//! The plan of tables that are joined as they are written.
ghost use Rattle.std.specs.Prelude.{◌≡◌, IfOk, MatchOption, map, ⊤};
ghost use Rattle.std.specs.List.{list_any};
ghost use Rattle.expr.specs.View.{term};
ghost use Rattle.semantics.specs.Joins.{pads_left};
ghost use Rattle.semantics_names.specs.Sources.{kind_of};
ghost use Rattle.logical_plan.specs.JoinPlan.{IsWritten, joined_by};
ghost use Rattle.logical_plan.specs.PlanView.{plan_data};
ghost use Rattle.logical_plan_terms.specs.table_plans.Input.{from_of};
ghost use Rattle.logical_plan_terms.specs.table_plans.Parted.{AreParted};
ghost use Rattle.logical_plan_terms.specs.table_plans.Planned.{AreOnOver};

use crate::conjuncts_over;
use crate::table_plans::columns::{columns_behind, columns_left};
use crate::table_plans::inputs::JoinedTable;
use expr::Expr;
use logical_plan::{Nested, OuterTable, Plan};
use std::alloc::{AllocError, Global};

/// Whether one of these tables is joined by a RIGHT or FULL JOIN.
pub(crate) fn some_flagged(tables: &[JoinedTable]) -> bool
    ensures { result ≡ list_any (λ table. pads_left (kind_of table.join)) tables.now }
{
    tables.iter().any(|table| table.is_flagged())
}

/// A table after a plan before which rows of a given number of values are read, with these columns and these tests; it is read whole.
fn joined(
    alloc: Global,
    last: &JoinedTable,
    left: Plan,
    columns: Vec<usize>,
    on: Vec<Expr>,
    before: usize,
) -> Result<Plan, AllocError>
    ensures { IfOk result (λ plan. plan_data plan
        ≡ joined_by (kind_of last.now.join) (plan_data left) before last.now.table columns.items (map term on.items)) }
{
    let left = Box::new(alloc, left)?;
    let nested = Nested {
        table: last.table,
        columns,
        tests: on,
        padded: last.is_padded(),
        search: None,
    };
    if last.is_flagged() {
        return Ok(Plan::OuterJoin(left, OuterTable { nested, before }));
    }
    Ok(Plan::NestedLoop(left, nested))
}

/// The plan of tables of which these columns are read, at each of which its own ON is tested, and nothing else. There is none
/// exactly where an ON names a column that isn't read of the tables up to its own, or the answer of an inner query. (SELECT,
/// "Determination of input data")
pub(crate) fn written_behind(
    alloc: Global,
    tables: &[JoinedTable],
    read: &[usize],
) -> Result<Option<Plan>, AllocError>
    requires { AreParted (from_of tables.now) read.now }
    ensures over { IfOk result (λ plan. MatchOption plan (¬ AreOnOver read.now (from_of tables.now)) (λ _. AreOnOver read.now (from_of tables.now))) }
    ensures plan { IfOk result (λ plan. MatchOption plan ⊤ (λ plan. IsWritten read.now (from_of tables.now) (plan_data plan))) }
{
    let [before @ .., last] = tables else {
        return Ok(Some(Plan::SingleRow));
    };
    let columns = columns_behind(alloc, before, read)?;
    let first = columns_left(read, columns.len());
    let on = match conjuncts_over(alloc, read, 0, last.condition)? {
        None => return Ok(None),
        Some(on) => on,
    };
    let left = match written_behind(alloc, before, first)? {
        None => return Ok(None),
        Some(left) => left,
    };
    let plan = joined(alloc, last, left, columns, on, first.len())?;
    Ok(Some(plan))
}
