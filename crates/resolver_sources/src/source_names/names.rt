//! Copies of names.
ghost use Rattle.std.specs.Prelude.{◌≡◌, IfOk, map, option_map, string_bytes};

use std::alloc::{AllocError, Global};

/// A copy of a name, if there is one.
pub(crate) fn copy_name(alloc: Global, name: &Option<String>) -> Result<Option<String>, AllocError>
    ensures { IfOk result (λ copy. option_map (λ n. string_bytes n) copy ≡ option_map (λ n. string_bytes n) name.now) }
{
    match name {
        None => Ok(None),
        Some(name) => Ok(Some(String::from_str(alloc, name.as_str())?)),
    }
}

/// Copies of names, in their order.
pub fn copy_names(alloc: Global, names: &[String]) -> Result<Vec<String>, AllocError>
    ensures { IfOk result (λ v. map (λ n. string_bytes n) v.items ≡ map (λ n. string_bytes n) names.now) }
{
    let mut copies = Vec::new(alloc);
    for name in names {
        copies.push(String::from_str(alloc, name.as_str())?)?;
    }
    Ok(copies)
}
