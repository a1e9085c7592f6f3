//! Calls with OVER.
ghost use Rattle.std.specs.Prelude.{Ok, map, option_map};
ghost use Rattle.semantics_names.specs.Places as spec;
ghost use Rattle.resolver_exprs.specs.places.Transposed.{transposed};
ghost use Rattle.resolver_terms.specs.Outcome.{Gives};
ghost use Rattle.resolver_terms.specs.SelectView.{call_of, function_of};
ghost use Rattle.sql_reader_grammar.specs.statement_trees.TreeView.{expr_of, over_of};
ghost use Rattle.resolver_selects.specs.window_names.DefinedView.{defined_of};

use crate::window_calls::functions::function;
use crate::window_names::{Defined, defined_as, window};
use resolver_exprs::{InnerQueries, Place, count_rows};
use resolver_terms::{WindowCall, WindowFunction};
use sql_reader_grammar::{Expr, Over};
use std::alloc::Global;
use values::Fault;

// The call of a function over what stands behind OVER.
fn call_over<I: InnerQueries, P: Place>(
    alloc: Global,
    inner: &I,
    place: &P,
    defined: &[Defined],
    function: WindowFunction,
    over: &Over,
) -> Result<Option<WindowCall>, Fault>
    ensures { Gives (option_map call_of) result
        (transposed (spec.over_call
        (spec.over (I.answers inner.now) (P.meaning place.now) (map defined_of defined.now) (over_of over.now))
        (Ok (function_of function)))) }
{
    match over {
        Over::Absent => Ok(None),
        Over::Name(name) => {
            let window = defined_as(alloc, defined, name.as_str())?;
            Ok(Some(WindowCall { window, function }))
        }
        Over::Window(tree) => {
            let window = window(alloc, inner, place, tree)?;
            Ok(Some(WindowCall { window, function }))
        }
    }
}

/// The call over a window that a part of an expression is, if it is one. The fault is one of `term`; `BadFrame` where the
/// window isn't defined, or a distance of its frame is negative; `WrongPlace` where the function isn't one over windows; or
/// `NoMemory`. (Window Functions)
pub(crate) fn call<I: InnerQueries, P: Place>(
    alloc: Global,
    inner: &I,
    place: &P,
    defined: &[Defined],
    part: &Expr,
) -> Result<Option<WindowCall>, Fault>
    ensures { Gives (option_map call_of) result
        (transposed (spec.call_of (I.answers inner.now) (P.meaning place.now) (map defined_of defined.now) (expr_of part.now))) }
{
    match part {
        Expr::CountRows(behind) => match &behind.over {
            Over::Absent => Ok(None),
            Over::Name(_) | Over::Window(_) => {
                let count = count_rows(alloc, inner, place, &behind.filter)?;
                let count = WindowFunction::Aggregate(count);
                call_over(alloc, inner, place, defined, count, &behind.over)
            }
        },
        Expr::Call(name, items, behind) => match &behind.over {
            Over::Absent => Ok(None),
            Over::Name(_) | Over::Window(_) => {
                let function = function(alloc, inner, place, *name, items, &behind.filter)?;
                call_over(alloc, inner, place, defined, function, &behind.over)
            }
        },
        _ => Ok(None),
    }
}
