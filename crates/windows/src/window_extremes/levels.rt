//! Stretches of one width.
ghost use Rattle.std.specs.Prelude.{◌≡◌, ◌+◌, ◌≤◌, IfOk, None, length, map, slice_index_or};
ghost use Rattle.values.specs.Datum.{datum_of};
ghost use Rattle.windows.specs.window_extremes.Stretches.{IsLevel};

use crate::first_values::{Side, better, own_place};
use std::alloc::{AllocError, Global};
use values::Value;

/// The place of the first of the values of each stretch of one place, none where it is NULL.
pub(crate) fn single_places(
    alloc: Global,
    values: &[Value],
) -> Result<Vec<Option<usize>>, AllocError>
    ensures { IfOk result (λ level. (side : Side) → IsLevel side (map datum_of values.now) 1 level.items) }
{
    let mut level = Vec::with_capacity(alloc, values.len())?;
    for at in 0..values.len() {
        level.push(own_place(values, at))?;
    }
    Ok(level)
}

/// What is known of the stretch that begins so many places behind one, or nothing past the end.
fn place_behind(level: &[Option<usize>], at: usize, width: usize) -> Option<usize>
    requires { at ≤ length level.now }
    ensures { result ≡ slice_index_or level.now (at + width) None }
{
    if width < level.len() - at {
        level[at + width]
    } else {
        None
    }
}

/// The places of the first of the values of stretches that are twice as wide.
pub(crate) fn doubled(
    alloc: Global,
    side: Side,
    values: &[Value],
    level: &[Option<usize>],
    width: usize,
) -> Result<Vec<Option<usize>>, AllocError>
    requires { IsLevel side (map datum_of values.now) width level.now }
    ensures { IfOk result (λ wider. IsLevel side (map datum_of values.now) (width + width) wider.items) }
{
    let mut wider = Vec::with_capacity(alloc, level.len())?;
    for at in 0..level.len() {
        let behind = place_behind(level, at, width);
        wider.push(better(side, values, level[at], behind))?;
    }
    Ok(wider)
}
