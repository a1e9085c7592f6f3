//! What is at a position: a table, or a list of rows.
ghost use Rattle.std.specs.Prelude.{◌↔◌, ◌<◌, All, IsTrue};
ghost use Rattle.logical_plan_queries.specs.plan_sources.Places.{HasPlace};
ghost use Rattle.logical_plan.specs.answers.Sources.{sources_of};

use schema_tables::Table;
use values::Value;

/// Whether these are places of columns, where there are so many.
fn are_within(count: usize, columns: &[usize]) -> bool
    ensures { IsTrue result ↔ All (λ at. at < count) columns.now }
{
    columns.iter().all(|at| *at < count)
}

/// Whether a table or a list of rows behind the tables stands at a place, with these columns. A list has any: those that a row lacks
/// are NULL.
pub(crate) fn has_place(
    tables: &[Table],
    kept: &[Vec<Vec<Value>>],
    place: usize,
    columns: &[usize],
) -> bool
    ensures { IsTrue result ↔ HasPlace (sources_of tables.now kept.now) place columns.now }
{
    match tables.get(place) {
        Some(table) => are_within(table.columns().len(), columns),
        None => place - tables.len() < kept.len(),
    }
}
