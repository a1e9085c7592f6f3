//! What has to be typed beside a SELECT: the windows that it names, used or not.
ghost use Rattle.std.specs.Prelude.{◌≡◌, IfOk, map};
ghost use Rattle.resolver_bodies.specs.BodyView.{single_of, tables_of};
ghost use Rattle.semantics_names.specs.Statement as spec;
ghost use Rattle.resolver_terms.specs.SelectView.{call_of, select_of};
ghost use Rattle.resolver_selects.specs.window_names.DefinedView.{defined_of};

use expr::copy;
use resolver_bodies::{Single, Tables, copy_tables};
use resolver_selects::Defined;
use resolver_terms::{Select, WindowCall, WindowFunction, copy_grouping, copy_window};
use std::alloc::{AllocError, Global};

// A call over each of these windows.
fn calls_over(alloc: Global, defined: &[Defined]) -> Result<Vec<WindowCall>, AllocError>
    ensures { IfOk result (λ v. map call_of v.items ≡ map spec.over_defined (map defined_of defined.now)) }
{
    let mut calls = Vec::new(alloc);
    for named in defined {
        let window = copy_window(alloc, &named.window)?;
        calls.push(WindowCall {
            window,
            function: WindowFunction::RowNumber,
        })?;
    }
    Ok(calls)
}

// A SELECT that computes nothing but calls over these windows.
fn windows_alone(alloc: Global, select: &Select, defined: &[Defined]) -> Result<Select, AllocError>
    ensures { IfOk result (λ s. select_of s ≡ spec.with_windows (select_of select.now) (map defined_of defined.now)) }
{
    let condition = copy(alloc, &select.condition)?;
    let grouping = copy_grouping(alloc, &select.grouping)?;
    let windows = calls_over(alloc, defined)?;
    Ok(Select {
        condition,
        grouping,
        windows,
        columns: Vec::new(alloc),
        distinct: select.distinct,
    })
}

/// A SELECT over the same rows that computes nothing but calls over these windows. (Window Functions)
pub(crate) fn with_windows(
    alloc: Global,
    tables: &Tables,
    select: &Select,
    defined: &[Defined],
) -> Result<Single, AllocError>
    ensures from { IfOk result (λ s. (single_of s).from ≡ tables_of tables.now) }
    ensures select { IfOk result (λ s. (single_of s).select ≡ spec.with_windows (select_of select.now) (map defined_of defined.now)) }
{
    let select = windows_alone(alloc, select, defined)?;
    let tables = copy_tables(alloc, tables)?;
    Ok(Single { tables, select })
}
