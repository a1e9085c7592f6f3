//! The rows that the result columns of a SELECT, and its ORDER BY, are computed on, and the types of these
//! columns.
ghost use Rattle.resolver_types.specs.body_types.RowView.{row_of};
ghost use Rattle.resolver_types.specs.body_types.Rows.{column_types, computed_behind};
ghost use Rattle.resolver_terms.specs.Outcome.{Gives};
ghost use Rattle.resolver_terms.specs.SelectView.{select_of};

use crate::body_types::rows::Row;
use crate::body_types::selects::computed_types;
use crate::term_types::term_types;
use resolver_terms::Select;
use std::alloc::Global;
use values::{Fault, Ty};

/// The rows that result columns and ORDER BY speak of, from those of FROM. The fault is one of `computed_types`.
pub(crate) fn computed_behind(alloc: Global, from: Row, select: &Select) -> Result<Row, Fault>
    ensures { Gives row_of result (computed_behind (select_of select.now) (row_of from)) }
{
    let columns = computed_types(alloc, &from.types(), select)?;
    let Row {
        columns: _,
        answers,
    } = from;
    Ok(Row { columns, answers })
}

/// The types of the result columns of a SELECT, over such a row. The fault is `TypeMismatch` where a column has none, or `NoMemory`.
/// (SELECT, "Generation of the set of result rows")
pub fn column_types(alloc: Global, over: &Row, select: &Select) -> Result<Vec<Ty>, Fault>
    ensures { Gives (λ v. v.items) result (column_types (select_of select.now) (row_of over.now)) }
{
    term_types(alloc, &over.types(), select.columns.as_slice())
}
