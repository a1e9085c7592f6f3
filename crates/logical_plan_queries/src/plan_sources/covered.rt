//! Whether a plan reads sources that exist.
ghost use Rattle.std.specs.Prelude.{◌↔◌, IsTrue};
ghost use Rattle.logical_plan.specs.answers.Arms.{ArePlannedOver, arms_data};
ghost use Rattle.logical_plan.specs.answers.Sources.{IsNestOf, IsPlanOf, sources_of};
ghost use Rattle.logical_plan.specs.PlanView.{nested_data, plan_data};
ghost use Rattle.logical_plan_queries.specs.Answers.{IsPlannedOver, planned_data};

use crate::Planned;
use crate::plan_sources::named::has_place;
use logical_plan::{Arms, Nested, Plan};
use schema_tables::Table;
use values::Value;

fn is_nest_over(tables: &[Table], kept: &[Vec<Vec<Value>>], nested: &Nested) -> bool
    ensures { IsTrue result ↔ IsNestOf (sources_of tables.now kept.now) (nested_data nested.now) }
{
    nested.search.is_none() && has_place(tables, kept, nested.table, nested.columns.as_slice())
}

fn is_plan_over(tables: &[Table], kept: &[Vec<Vec<Value>>], plan: &Plan) -> bool
    ensures { IsTrue result ↔ IsPlanOf (sources_of tables.now kept.now) (plan_data plan.now) }
{
    match plan {
        Plan::SingleRow => true,
        Plan::Filter(below, _) => is_plan_over(tables, kept, below),
        Plan::NestedLoop(left, nested) => {
            is_plan_over(tables, kept, left) && is_nest_over(tables, kept, nested)
        }
        Plan::OuterJoin(left, flagged) => {
            is_plan_over(tables, kept, left) && is_nest_over(tables, kept, &flagged.nested)
        }
        Plan::Aggregate(below, _) => is_plan_over(tables, kept, below),
        Plan::Window(below, _, _) => is_plan_over(tables, kept, below),
    }
}

fn are_arms_over(tables: &[Table], kept: &[Vec<Vec<Value>>], arms: &Arms) -> bool
    ensures { IsTrue result ↔ ArePlannedOver (sources_of tables.now kept.now) (arms_data arms.now) }
{
    match arms {
        Arms::One(arm) => is_plan_over(tables, kept, &arm.plan),
        Arms::Joined(left, _, arm) => {
            are_arms_over(tables, kept, left) && is_plan_over(tables, kept, &arm.plan)
        }
    }
}

/// Whether each place that a plan names is that of a table of the catalog, or of a list of rows behind these, with the columns that are
/// read of it.
pub fn is_over(tables: &[Table], kept: &[Vec<Vec<Value>>], planned: &Planned) -> bool
    ensures { IsTrue result ↔ IsPlannedOver (sources_of tables.now kept.now) (planned_data planned.now) }
{
    match planned {
        Planned::Columns(place, columns) => has_place(tables, kept, *place, columns.as_slice()),
        Planned::Answer(answer) => are_arms_over(tables, kept, &answer.arms),
    }
}
