//! The types of columns, one after another.
ghost use Rattle.std.specs.Prelude.{◌≡◌, IfOk, map};
ghost use Rattle.resolver_types.specs.body_types.Tables.{table_types};
ghost use Rattle.semantics.specs.Typed.{schema_types};
ghost use Rattle.semantics_names.specs.Types as spec;
ghost use Rattle.resolver_terms.specs.Outcome.{Gives};

use crate::term_types::typed;
use expr_types::one_type;
use std::alloc::{AllocError, Global};
use values::{Fault, Ty};

/// The types of the schema's table. (The Schema Table)
pub(crate) fn schema_types(alloc: Global) -> Result<Vec<Ty>, AllocError>
    ensures { IfOk result (λ v. v.items ≡ schema_types) }
{
    Vec::from_slice(alloc, &[Ty::Text, Ty::Text, Ty::Text, Ty::Int, Ty::Text])
}

/// The types of the table at a place of the catalog. The fault is `TypeMismatch` where there is none; `ColumnCount` where it has not
/// so many columns; or `NoMemory`.
pub(crate) fn table_types(
    alloc: Global,
    tables: &[Vec<Ty>],
    place: usize,
    width: usize,
) -> Result<Vec<Ty>, Fault>
    ensures { Gives (λ v. v.items) result (table_types (map (λ t. t.items) tables.now) place width) }
{
    let Some(types) = tables.get(place) else {
        return Err(Fault::TypeMismatch);
    };
    if types.len() != width {
        return Err(Fault::ColumnCount);
    }
    Ok(Vec::from_slice(alloc, types.as_slice())?)
}

/// The type of the one column. The fault is `ColumnCount` where there is not one.
pub(crate) fn single_type(types: &[Ty]) -> Result<Ty, Fault>
    ensures { result ≡ spec.single_type types.now }
{
    match types {
        [only] => Ok(*only),
        _ => Err(Fault::ColumnCount),
    }
}

/// The one type of the columns of each place of two SELECTs that are joined. The fault is `TypeMismatch` where two columns have
/// none; `ColumnCount` where one has more; or `NoMemory`. (SELECT, "Compound Select Statements")
pub(crate) fn one_types(alloc: Global, first: &[Ty], second: &[Ty]) -> Result<Vec<Ty>, Fault>
    ensures { Gives (λ v. v.items) result (spec.one_types first.now second.now) }
{
    let mut types = Vec::new(alloc);
    let mut rest = second;
    for x in first {
        let Some((y, others)) = rest.split_first() else {
            return Err(Fault::ColumnCount);
        };
        let ty = typed(one_type(*x, *y))?;
        types.push(ty)?;
        rest = others;
    }
    if !rest.is_empty() {
        return Err(Fault::ColumnCount);
    }
    Ok(types)
}
