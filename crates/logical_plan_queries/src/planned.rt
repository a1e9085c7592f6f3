//! What is run for a query.

use logical_plan::Answer;

/// What is run for a query. (SELECT)
#[derive(Drop)]
pub enum Planned {
    /// These columns of each row of the source at this place, mostly a table of the catalog.
    Columns(usize, Vec<usize>),
    /// Rows of SELECTs, in order or as they come.
    Answer(Answer),
}
