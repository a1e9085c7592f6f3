//! Aggregates, and functions over windows.
ghost use Rattle.std.specs.Prelude.{◌≡◌, map};
ghost use Rattle.semantics_names.specs.Outcome.{each};
ghost use Rattle.semantics_names.specs.Types as spec;
ghost use Rattle.resolver_terms.specs.Outcome.{Gives};
ghost use Rattle.resolver_terms.specs.SelectView.{aggregate_of, function_of};

use crate::term_types::terms::{both_type, condition_type, term_type};
use expr_types::RowTypes;
use resolver_terms::{Aggregate, AggregateFunction, WindowFunction};
use std::alloc::Global;
use values::{Fault, Ty};

// The type of an aggregate. The fault is `TypeMismatch`. (Built-in Aggregate Functions)
fn aggregate_type(over: &RowTypes<'_>, a: &Aggregate) -> Result<Ty, Fault>
    ensures { result ≡ spec.aggregate_type over.now.answers.now over.now.columns.now (aggregate_of a.now) }
{
    match a.function {
        AggregateFunction::Count => {
            let _any = term_type(over, &a.argument)?;
            Ok(Ty::Int)
        }
        AggregateFunction::Sum => condition_type(over, &a.argument),
        AggregateFunction::Min | AggregateFunction::Max => term_type(over, &a.argument),
    }
}

/// The type of each aggregate. The fault is `TypeMismatch` where an argument has no type, or where that of `sum` is no whole number;
/// or `NoMemory`. (Built-in Aggregate Functions)
pub fn aggregate_types(
    alloc: Global,
    over: &RowTypes<'_>,
    aggregates: &[Aggregate],
) -> Result<Vec<Ty>, Fault>
    ensures { Gives (λ v. v.items) result
        (each (spec.aggregate_type over.now.answers.now over.now.columns.now) (map aggregate_of aggregates.now)) }
{
    let mut types = Vec::new(alloc);
    for a in aggregates {
        let ty = aggregate_type(over, a)?;
        types.push(ty)?;
    }
    Ok(types)
}

/// The type of a function over a window. The fault is `TypeMismatch` where its arguments have no type, or not one; `BadFrame` of no
/// buckets, or of the row 0. (Window Functions, "Built-in Window Functions")
pub(crate) fn function_type(over: &RowTypes<'_>, function: &WindowFunction) -> Result<Ty, Fault>
    ensures { result ≡ spec.function_type over.now.answers.now over.now.columns.now (function_of function.now) }
{
    match function {
        WindowFunction::Aggregate(a) => aggregate_type(over, a),
        WindowFunction::RowNumber | WindowFunction::Rank | WindowFunction::DenseRank => Ok(Ty::Int),
        WindowFunction::NTile(0) | WindowFunction::NthValue(_, 0) => Err(Fault::BadFrame),
        WindowFunction::NTile(_) => Ok(Ty::Int),
        WindowFunction::Lag(x, _, otherwise) | WindowFunction::Lead(x, _, otherwise) => {
            both_type(over, x, otherwise)
        }
        WindowFunction::FirstValue(x)
        | WindowFunction::LastValue(x)
        | WindowFunction::NthValue(x, _) => term_type(over, x),
    }
}
