//! What USING changes of the columns that a FROM shows.
ghost use Rattle.std.specs.Prelude.{◌≡◌, OnOk};
ghost use Rattle.semantics_names.specs.Sources as spec;

use crate::scopes::Shown;
use std::alloc::AllocError;

/// The columns of this bare name look at these places too. (SELECT, "Determination of input data")
pub(crate) fn merge(columns: &mut [Shown], name: &str, places: &[usize]) -> Result<(), AllocError>
    ensures { OnOk result (columns.new ≡ spec.merged name.now places.now columns.old) }
{
    for shown in columns.iter_mut() {
        shown.merge(name, places)?;
    }
    Ok(())
}

/// The columns of this bare name have none. (SELECT, "Determination of input data")
pub(crate) fn hide(columns: &mut [Shown], name: &str)
    ensures { columns.new ≡ spec.hidden name.now columns.old }
{
    for shown in columns.iter_mut() {
        shown.hide(name);
    }
}
