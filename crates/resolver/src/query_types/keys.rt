//! The types of ORDER BY.
ghost use Rattle.std.specs.Prelude.{◌≡◌, map, option_map};
ghost use Rattle.resolver_types.specs.body_types.RowView.{row_of};
ghost use Rattle.semantics_names.specs.Outcome.{each};
ghost use Rattle.resolver.specs.query_types.Keys.{key_over};
ghost use Rattle.resolver_types.specs.term_types.Passed.{passed};
ghost use Rattle.resolver_terms.specs.SelectView.{key_of, key_term_of};

use resolver_terms::{Key, KeyTerm};
use resolver_types::{Row, term_type, typed};
use values::{Fault, Ty};

// The type of a key behind result columns of these types; expressions stand over this row, if there is one for them. The fault is
// `TypeMismatch`, or `WrongPlace` of an expression where there is none. (SELECT, "The ORDER BY clause")
fn key_type(over: Option<&Row>, types: &[Ty], by: &KeyTerm) -> Result<Ty, Fault>
    ensures { result ≡ key_over (option_map (λ r. row_of r.now) over.entry) types.now (key_term_of by.now) }
{
    match by {
        KeyTerm::Result(place) => typed(types.get(*place).copied()),
        KeyTerm::Term(t) => match over {
            None => Err(Fault::WrongPlace),
            Some(row) => term_type(&row.types(), t),
        },
    }
}

/// Whether each key has a type. The fault is one of `key_type`. (SELECT, "The ORDER BY clause")
pub(crate) fn check_keys(over: Option<&Row>, types: &[Ty], order: &[Key]) -> Result<(), Fault>
    ensures { result ≡ passed (each (λ k. key_over (option_map (λ r. row_of r.now) over.entry) types.now k.by) (map key_of order.now)) }
{
    for key in order {
        let _ty = key_type(over, types, &key.by)?;
    }
    Ok(())
}
