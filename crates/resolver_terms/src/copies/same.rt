//! Copies of the same tree.
ghost use Rattle.std.specs.Prelude.{◌≡◌, IfOk, map, option_map};
ghost use Rattle.resolver_terms.specs.SelectView.{aggregate_of, call_of, grouping_of, key_of, select_of, window_of};

use crate::copies::terms::{
    aggregates_with, calls_with, grouping_with, order_with, select_with, window_with,
};
use crate::{Aggregate, Grouping, Key, Select, Window, WindowCall};
use expr::Leaves;
use std::alloc::{AllocError, Global};

/// Copies of aggregates, in their order. (Built-in Aggregate Functions)
pub fn copy_aggregates(
    alloc: Global,
    aggregates: &[Aggregate],
) -> Result<Vec<Aggregate>, AllocError>
    ensures { IfOk result (λ v. map aggregate_of v.items ≡ map aggregate_of aggregates.now) }
{
    aggregates_with(alloc, Leaves::Same, aggregates)
}

/// A copy of a window. (Window Functions)
pub fn copy_window(alloc: Global, window: &Window) -> Result<Window, AllocError>
    ensures { IfOk result (λ copy. window_of copy ≡ window_of window.now) }
{
    window_with(alloc, Leaves::Same, window)
}

/// Copies of calls over windows, in their order. (Window Functions)
pub fn copy_calls(alloc: Global, calls: &[WindowCall]) -> Result<Vec<WindowCall>, AllocError>
    ensures { IfOk result (λ v. map call_of v.items ≡ map call_of calls.now) }
{
    calls_with(alloc, Leaves::Same, calls)
}

/// A copy of GROUP BY and HAVING, where there are groups. (SELECT, "Generation of the set of result rows")
pub fn copy_grouping(
    alloc: Global,
    grouping: &Option<Grouping>,
) -> Result<Option<Grouping>, AllocError>
    ensures { IfOk result (λ copy. option_map grouping_of copy ≡ option_map grouping_of grouping.now) }
{
    grouping_with(alloc, Leaves::Same, grouping)
}

/// A copy of a SELECT without its FROM. (SELECT)
pub fn copy_select(alloc: Global, select: &Select) -> Result<Select, AllocError>
    ensures { IfOk result (λ copy. select_of copy ≡ select_of select.now) }
{
    select_with(alloc, Leaves::Same, select)
}

/// Copies of the keys of ORDER BY. (SELECT, "The ORDER BY clause")
pub fn copy_order(alloc: Global, order: &[Key]) -> Result<Vec<Key>, AllocError>
    ensures { IfOk result (λ v. map key_of v.items ≡ map key_of order.now) }
{
    order_with(alloc, Leaves::Same, order)
}
