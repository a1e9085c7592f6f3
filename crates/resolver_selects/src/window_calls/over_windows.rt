//! The place of expressions over the rows of windows.
ghost use Rattle.std.specs.Prelude.{Ok, map, option_map};
ghost use Rattle.semantics_names.specs.Places.{column_from, place_of};
ghost use Rattle.semantics_names.specs.Same.{is_same_call};
ghost use Rattle.resolver_terms.specs.Outcome.{Gives};
ghost use Rattle.resolver_terms.specs.SelectView.{call_of};
ghost use Rattle.expr.specs.View.{term};

use crate::window_calls::calls::call;
use crate::window_calls::mentions::call_place;
use crate::window_names::Defined;
use expr::Expr as Term;
use resolver_exprs::{InnerQueries, Place};
use resolver_terms::WindowCall;
use sql_reader_grammar::Expr;
use std::alloc::Global;
use values::Fault;

/// Where expressions speak of the rows of FROM or of groups, followed by the value of each call over a window: the result
/// columns and ORDER BY. (Window Functions)
#[derive(Drop)]
pub struct Windowed<'a, I, P> {
    /// The queries inside the expressions of the SELECT.
    pub inner: &'a I,
    /// The rows of FROM or of groups.
    pub input: &'a P,
    /// The windows that the SELECT names.
    pub defined: &'a [Defined],
    /// How many values such a row has.
    pub width: usize,
    /// The calls, in the order of their first mention.
    pub calls: &'a [WindowCall],
}

// The column of a call, behind the values of the row.
fn call_column(width: usize, calls: &[WindowCall], call: &WindowCall) -> Result<Option<Term>, Fault>
    ensures { Gives (option_map term) result
        (Ok (column_from width (place_of is_same_call (call_of call.now) (map call_of calls.now)))) }
{
    let Some(at) = call_place(calls, call) else {
        return Ok(None);
    };
    // a row of more values than can be counted is in no memory
    let Some(column) = width.checked_add(at) else {
        return Err(Fault::NoMemory);
    };
    Ok(Some(Term::Column(column)))
}

impl<'a, I: InnerQueries, P: Place> Place for Windowed<'a, I, P> {
    ghost use Rattle.std.specs.Prelude.{map};
    ghost use Rattle.semantics_names.specs.Places.{windows_say};
    ghost use Rattle.resolver_terms.specs.SelectView.{call_of};
    ghost use Rattle.resolver_selects.specs.window_names.DefinedView.{defined_of};

    ghost meaning = { λ place.
        windows_say (I.answers place.inner.now) (P.meaning place.input.now) (map defined_of place.defined.now) place.width
        (map call_of place.calls.now) };

    fn says(&self, alloc: Global, part: &Expr) -> Result<Option<Term>, Fault> {
        let found = call(alloc, self.inner, self.input, self.defined, part)?;
        match found {
            Some(found) => call_column(self.width, self.calls, &found),
            None => self.input.says(alloc, part),
        }
    }
}
