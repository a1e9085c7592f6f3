//! Columns of each row of a table, as rows of a SELECT.
ghost use Rattle.std.specs.Prelude.{◌≡◌, IfOk, map};
ghost use Rattle.std.specs.List.{range_with_len};
ghost use Rattle.expr.specs.Term.{column};
ghost use Rattle.expr.specs.View.{term};
ghost use Rattle.logical_plan.specs.PlanView.{plan_data};
ghost use Rattle.logical_plan.specs.answers.Arms.{arm_data};
ghost use Rattle.operators_runs.specs.execution.Columns.{columns_arm, columns_plan};

use expr::Expr;
use logical_plan::{Arm, Nested, Plan};
use std::alloc::{AllocError, Global};

/// A column by its place.
fn column_at(at: usize) -> Expr
    ensures { term result ≡ column at }
{
    Expr::Column(at)
}

/// The columns of rows that have so many.
fn whole_row(alloc: Global, width: usize) -> Result<Vec<Expr>, AllocError>
    ensures { IfOk result (λ columns. map term columns.items ≡ map column (range_with_len 0 width)) }
{
    let mut columns = Vec::with_capacity(alloc, width)?;
    for at in 0..width {
        columns.push(column_at(at))?;
    }
    Ok(columns)
}

/// The plan of these columns of the table at a place of the catalog.
fn plan_of(alloc: Global, table: usize, places: &[usize]) -> Result<Plan, AllocError>
    ensures { IfOk result (λ plan. plan_data plan ≡ columns_plan table places.now) }
{
    let nested = Nested {
        table,
        columns: Vec::from_slice(alloc, places)?,
        tests: Vec::new(alloc),
        padded: false,
        search: None,
    };
    let once = Box::new(alloc, Plan::SingleRow)?;
    Ok(Plan::NestedLoop(once, nested))
}

/// What gives these columns of each row of the table at a place of the catalog, in the table's order.
pub(crate) fn arm_of(alloc: Global, table: usize, places: &[usize]) -> Result<Arm, AllocError>
    ensures { IfOk result (λ arm. arm_data arm ≡ columns_arm table places.now) }
{
    let plan = plan_of(alloc, table, places)?;
    let columns = whole_row(alloc, places.len())?;
    Ok(Arm {
        plan,
        columns,
        distinct: false,
    })
}
