//! The columns that one source shows.
ghost use Rattle.std.specs.Prelude.{◌≡◌, ◌∷◌, [], IfOk, Ok, map, option_map, string_bytes};
ghost use Rattle.semantics_names.specs.Sources as spec;
ghost use Rattle.resolver_terms.specs.Outcome.{Gives};

use crate::source_names::names::copy_name;
use resolver_exprs::{Scope, Shown};
use std::alloc::{AllocError, Global};
use values::Fault;

// A column of a source, at this place of the row.
fn column(
    alloc: Global,
    source: &Option<String>,
    name: &str,
    at: usize,
) -> Result<Shown, AllocError>
    ensures { IfOk result (λ s. s ≡ record {
      source = option_map (λ n. string_bytes n) source.now;
      name = name.now;
      places = at ∷ [];
    }) }
{
    let mut places = Vec::new(alloc);
    places.push(at)?;
    let source = copy_name(alloc, source)?;
    let name = String::from_str(alloc, name)?;
    Ok(Shown::new(source, name, places))
}

/// The columns of a source that is called so, from this place of the row on. (SELECT, "Determination of input data")
pub(crate) fn shown_from(
    alloc: Global,
    source: &Option<String>,
    first: usize,
    names: &[String],
) -> Result<Scope, Fault>
    ensures { Gives (λ s. s) result
        (Ok (spec.shown_from (option_map (λ n. string_bytes n) source.now) first (map (λ n. string_bytes n) names.now))) }
{
    let mut columns = Vec::new(alloc);
    for (index, name) in names.iter().enumerate() {
        // a row of more values than can be counted is in no memory
        let Some(at) = first.checked_add(index) else {
            return Err(Fault::NoMemory);
        };
        let column = column(alloc, source, name.as_str(), at)?;
        columns.push(column)?;
    }
    Ok(Scope::new(columns))
}
