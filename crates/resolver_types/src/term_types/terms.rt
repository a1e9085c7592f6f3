//! Terms that have to be of some type.
ghost use Rattle.std.specs.Prelude.{◌≡◌, map};
ghost use Rattle.semantics_names.specs.Outcome.{each};
ghost use Rattle.semantics_names.specs.Types as spec;
ghost use Rattle.resolver_terms.specs.Outcome.{Gives};
ghost use Rattle.resolver_terms.specs.SelectView.{sort_of};
ghost use Rattle.expr.specs.View.{term};
ghost use Rattle.resolver_types.specs.term_types.Passed.{passed};

use expr::Expr;
use expr_types::{RowTypes, one_of, wanted};
use resolver_terms::SortTerm;
use std::alloc::Global;
use values::{Fault, Ty};

/// A type that was found. The fault is `TypeMismatch` where none was. (STRICT Tables)
pub fn typed(found: Option<Ty>) -> Result<Ty, Fault>
    ensures { result ≡ spec.typed found }
{
    match found {
        Some(ty) => Ok(ty),
        None => Err(Fault::TypeMismatch),
    }
}

/// The type of a term. The fault is `TypeMismatch` where it has none. (STRICT Tables)
pub fn term_type(over: &RowTypes<'_>, t: &Expr) -> Result<Ty, Fault>
    ensures { result ≡ spec.term_type over.now.answers.now over.now.columns.now (term t.now) }
{
    typed(over.type_of(t))
}

/// The type of a condition, that of a whole number. The fault is `TypeMismatch` where it has another, or none. (STRICT Tables)
pub fn condition_type(over: &RowTypes<'_>, t: &Expr) -> Result<Ty, Fault>
    ensures { result ≡ spec.condition_type over.now.answers.now over.now.columns.now (term t.now) }
{
    typed(wanted(Ty::Int, over.type_of(t)))
}

/// The one type of two terms. The fault is `TypeMismatch` where they have none. (STRICT Tables)
pub(crate) fn both_type(over: &RowTypes<'_>, x: &Expr, y: &Expr) -> Result<Ty, Fault>
    ensures { result ≡ spec.both_type over.now.answers.now over.now.columns.now (term x.now) (term y.now) }
{
    typed(one_of(over.type_of(x), over.type_of(y)))
}

/// The type of each term. The fault is `TypeMismatch` where one has none, or `NoMemory`. (STRICT Tables)
pub fn term_types(alloc: Global, over: &RowTypes<'_>, terms: &[Expr]) -> Result<Vec<Ty>, Fault>
    ensures { Gives (λ v. v.items) result (each (spec.term_type over.now.answers.now over.now.columns.now) (map term terms.now)) }
{
    let mut types = Vec::new(alloc);
    for t in terms {
        let ty = term_type(over, t)?;
        types.push(ty)?;
    }
    Ok(types)
}

/// Whether each term has a type. The fault is `TypeMismatch` where one has none. (STRICT Tables)
pub(crate) fn check_terms(over: &RowTypes<'_>, terms: &[Expr]) -> Result<(), Fault>
    ensures { result ≡ passed (each (spec.term_type over.now.answers.now over.now.columns.now) (map term terms.now)) }
{
    for t in terms {
        let _ty = term_type(over, t)?;
    }
    Ok(())
}

/// Whether each term of ORDER BY has a type. The fault is `TypeMismatch` where one has none. (STRICT Tables)
pub(crate) fn check_order(over: &RowTypes<'_>, order: &[SortTerm]) -> Result<(), Fault>
    ensures { result ≡ passed (each (λ s. spec.term_type over.now.answers.now over.now.columns.now s.term) (map sort_of order.now)) }
{
    for sort in order {
        let _ty = term_type(over, &sort.term)?;
    }
    Ok(())
}
