//! One SELECT, over the rows of its FROM.
ghost use Rattle.std.specs.Prelude.{map, option_map};
ghost use Rattle.resolver_types.specs.body_types.Groups.{group_types, with_calls};
ghost use Rattle.semantics_names.specs.Types as spec;
ghost use Rattle.resolver_terms.specs.Outcome.{Gives};
ghost use Rattle.resolver_terms.specs.SelectView.{call_of, grouping_of, select_of};

use crate::term_types::{aggregate_types, call_types, condition_type, term_types};
use expr_types::RowTypes;
use resolver_terms::{Grouping, Select, WindowCall};
use std::alloc::Global;
use values::{Fault, Ty};

// The types of the rows of groups. The fault is one of `term_types` and of `aggregate_types`.
fn group_types(alloc: Global, over: &RowTypes<'_>, grouping: &Grouping) -> Result<Vec<Ty>, Fault>
    ensures { Gives (λ v. v.items) result (group_types over.now.answers.now over.now.columns.now (grouping_of grouping.now)) }
{
    let mut types = term_types(alloc, over, grouping.by.as_slice())?;
    let mut aggregates = aggregate_types(alloc, over, grouping.aggregates.as_slice())?;
    types.append(&mut aggregates)?;
    Ok(types)
}

// The types of the rows that windows take. The fault is one of `group_types`, or `TypeMismatch` where HAVING is no whole number.
fn grouped_types(
    alloc: Global,
    over: &RowTypes<'_>,
    grouping: &Option<Grouping>,
) -> Result<Vec<Ty>, Fault>
    ensures { Gives (λ v. v.items) result
        (spec.grouped_types over.now.answers.now over.now.columns.now (option_map grouping_of grouping.now)) }
{
    match grouping {
        None => Ok(Vec::from_slice(alloc, over.columns)?),
        Some(grouping) => having_types(alloc, over, grouping),
    }
}

// The types of the rows of groups, where HAVING is a condition over them. The fault is one of `group_types` and of `condition_type`.
fn having_types(alloc: Global, over: &RowTypes<'_>, grouping: &Grouping) -> Result<Vec<Ty>, Fault>
    ensures { Gives (λ v. v.items) result
        (spec.grouped_types over.now.answers.now over.now.columns.now (Some (grouping_of grouping.now))) }
{
    let types = group_types(alloc, over, grouping)?;
    let groups = RowTypes {
        columns: types.as_slice(),
        answers: over.answers,
    };
    let _number = condition_type(&groups, &grouping.having)?;
    Ok(types)
}

// These types, followed by those of calls with OVER over them. The fault is one of `call_types`.
fn with_calls(
    alloc: Global,
    answers: &[Ty],
    input: Vec<Ty>,
    windows: &[WindowCall],
) -> Result<Vec<Ty>, Fault>
    ensures { Gives (λ v. v.items) result (with_calls answers.now input.items (map call_of windows.now)) }
{
    let rows = RowTypes {
        columns: input.as_slice(),
        answers,
    };
    let mut calls = call_types(alloc, &rows, windows)?;
    let mut types = input;
    types.append(&mut calls)?;
    Ok(types)
}

/// The types of the rows that result columns and ORDER BY speak of. The fault is `TypeMismatch` where a term has no type, or a
/// condition is no whole number; `BadFrame` of a window's frame or of a function's number; or `NoMemory`. (SELECT, "Generation of
/// the set of result rows")
pub(crate) fn computed_types(
    alloc: Global,
    over: &RowTypes<'_>,
    select: &Select,
) -> Result<Vec<Ty>, Fault>
    ensures { Gives (λ v. v.items) result (spec.computed_types over.now.answers.now over.now.columns.now (select_of select.now)) }
{
    let _number = condition_type(over, &select.condition)?;
    let input = grouped_types(alloc, over, &select.grouping)?;
    with_calls(alloc, over.answers, input, select.windows.as_slice())
}
