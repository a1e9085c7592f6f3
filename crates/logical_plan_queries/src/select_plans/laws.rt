//! What holds of the definitions alone.
ghost use Rattle.logical_plan_queries.specs.select_plans.Columns.{TablesHaveColumns};
ghost use Rattle.logical_plan_queries.specs.select_plans.Laws.{MadeHasRows, MadeIsHit, MadeIsOver, TypedIsOfRows};

/// A plan that is made of a SELECT has the rows on which it computes its result columns, and what the plan reaches, and what the
/// result columns and other terms reach on its rows, the SELECT can reach.
pub fn made_has_rows()
    ensures rows { MadeHasRows }
    ensures hits { MadeIsHit }
{}

/// Tables alone have the columns that the catalog of their types says.
pub fn tables_have_columns()
    ensures { TablesHaveColumns }
{}

/// The sources and columns of a plan that is made of a typed SELECT are some of those that have the catalog's columns.
pub fn made_is_over()
    ensures { MadeIsOver }
{}

/// Behind groups and windows a typed SELECT and its ORDER BY name values of the rows alone that they are computed on.
pub fn typed_is_of_rows()
    ensures { TypedIsOfRows }
{}
