//! The columns that a SELECT's groups name.
ghost use Rattle.std.specs.Prelude.{◌≡◌, ◌++◌, OnOk, flat_map, map};
ghost use Rattle.expr.specs.Columns.{columns_of};
ghost use Rattle.semantics.specs.Hits.{grouping_terms};
ghost use Rattle.semantics.specs.Query as query;
ghost use Rattle.resolver_terms.specs.SelectView.{aggregate_of, grouping_of};

use crate::push_columns_of_all;
use expr::columns;
use resolver_terms::{Aggregate, Grouping};
use std::alloc::AllocError;

/// Puts the columns that the arguments of aggregates name at the end of a list.
fn push_arguments(aggregates: &[Aggregate], out: &mut Vec<usize>) -> Result<(), AllocError>
    ensures { OnOk result (out.new.items ≡ out.old.items ++ flat_map columns_of (map (λ (a : query.Aggregate). a.argument) (map aggregate_of aggregates.now))) }
{
    for aggregate in aggregates {
        columns(&aggregate.argument, out)?;
    }
    Ok(())
}

/// Puts the columns that GROUP BY and the arguments of aggregates name at the end of a list.
pub fn push_group_columns(grouping: &Grouping, out: &mut Vec<usize>) -> Result<(), AllocError>
    ensures { OnOk result (out.new.items ≡ out.old.items ++ flat_map columns_of (grouping_terms (grouping_of grouping.now))) }
{
    push_columns_of_all(grouping.by.as_slice(), out)?;
    push_arguments(grouping.aggregates.as_slice(), out)
}
