//! Calls with OVER.
ghost use Rattle.std.specs.Prelude.{◌≡◌, map};
ghost use Rattle.semantics_names.specs.Outcome.{each};
ghost use Rattle.semantics_names.specs.Types as spec;
ghost use Rattle.resolver_terms.specs.Outcome.{Gives};
ghost use Rattle.resolver_terms.specs.SelectView.{call_of, window_of};
ghost use Rattle.resolver_types.specs.term_types.Passed.{passed};

use crate::term_types::frames::is_frame;
use crate::term_types::functions::function_type;
use crate::term_types::terms::{check_order, check_terms};
use expr_types::RowTypes;
use resolver_terms::{Window, WindowCall};
use std::alloc::Global;
use values::{Fault, Ty};

// Whether a window's terms have types, and its frame is one that there can be. The fault is `TypeMismatch` or `BadFrame`. (Window
// Functions)
fn check_window(over: &RowTypes<'_>, window: &Window) -> Result<(), Fault>
    ensures { result ≡ passed (spec.window_types over.now.answers.now over.now.columns.now (window_of window.now)) }
{
    check_terms(over, window.partition.as_slice())?;
    check_order(over, window.order.as_slice())?;
    if !is_frame(over, window.order.as_slice(), &window.frame) {
        return Err(Fault::BadFrame);
    }
    Ok(())
}

// The type of a call with OVER. The fault is one of `check_window` and of `function_type`. (Window Functions)
fn call_type(over: &RowTypes<'_>, call: &WindowCall) -> Result<Ty, Fault>
    ensures { result ≡ spec.call_type over.now.answers.now over.now.columns.now (call_of call.now) }
{
    check_window(over, &call.window)?;
    function_type(over, &call.function)
}

/// The type of each call with OVER. The fault is `TypeMismatch` where a term has no type, or not the one that is wanted; `BadFrame`
/// of a frame that there can't be, of no buckets, or of the row 0; or `NoMemory`. (Window Functions)
pub fn call_types(
    alloc: Global,
    over: &RowTypes<'_>,
    calls: &[WindowCall],
) -> Result<Vec<Ty>, Fault>
    ensures { Gives (λ v. v.items) result
        (each (spec.call_type over.now.answers.now over.now.columns.now) (map call_of calls.now)) }
{
    let mut types = Vec::new(alloc);
    for call in calls {
        let ty = call_type(over, call)?;
        types.push(ty)?;
    }
    Ok(types)
}
