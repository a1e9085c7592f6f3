//! Copies of what is read of a table.
ghost use Rattle.std.specs.Prelude.{◌≡◌, IfOk, option_map};
ghost use Rattle.logical_plan.specs.PlanView.{edge_term, nested_data, search_data};

use crate::plan::{Edge, Nested, Search};
use expr::{copy, copy_all};
use std::alloc::{AllocError, Global};

/// A copy of an end of a range.
fn copy_edge(alloc: Global, edge: &Option<Edge>) -> Result<Option<Edge>, AllocError>
    ensures { IfOk result (λ copied. option_map edge_term copied ≡ option_map edge_term edge.now) }
{
    match edge {
        None => Ok(None),
        Some(edge) => {
            let value = copy(alloc, &edge.value)?;
            let strict = edge.strict;
            Ok(Some(Edge { value, strict }))
        }
    }
}

/// A copy of a search.
fn copy_search(alloc: Global, search: &Option<Search>) -> Result<Option<Search>, AllocError>
    ensures { IfOk result (λ copied. option_map search_data copied ≡ option_map search_data search.now) }
{
    match search {
        None => Ok(None),
        Some(search) => {
            let copied = Search {
                key: Vec::from_slice(alloc, search.key.as_slice())?,
                equal: copy_all(alloc, search.equal.as_slice())?,
                lower: copy_edge(alloc, &search.lower)?,
                upper: copy_edge(alloc, &search.upper)?,
            };
            Ok(Some(copied))
        }
    }
}

/// A copy of what is read of a table, of what is tested at its rows, and of its search.
pub fn copy_nested(alloc: Global, nested: &Nested) -> Result<Nested, AllocError>
    ensures { IfOk result (λ copied. nested_data copied ≡ nested_data nested.now) }
{
    let columns = Vec::from_slice(alloc, nested.columns.as_slice())?;
    let tests = copy_all(alloc, nested.tests.as_slice())?;
    let search = copy_search(alloc, &nested.search)?;
    Ok(Nested {
        table: nested.table,
        columns,
        tests,
        padded: nested.padded,
        search,
    })
}
