//! The windows that a SELECT names.
ghost use Rattle.std.specs.Prelude.{◌≡◌, map};
ghost use Rattle.sql_reader_grammar.specs.Reading.{definitions_of};
ghost use Rattle.semantics_names.specs.Statement as spec;
ghost use Rattle.resolver_terms.specs.Outcome.{Gives};
ghost use Rattle.resolver_selects.specs.select_clauses.Definitions.{named_window};
ghost use Rattle.sql_reader_grammar.specs.statement_trees.TreeView.{definition_of};
ghost use Rattle.resolver_selects.specs.window_names.DefinedView.{defined_of};

use crate::window_names::{Defined, window};
use resolver_exprs::{InnerQueries, Place};
use sql_reader_grammar::NamedWindow;
use std::alloc::Global;
use values::Fault;

// Whether a window is named so.
fn is_among(name: &str, windows: &[NamedWindow]) -> bool
    ensures { result ≡ spec.is_among name.now (spec.window_names (definitions_of (map definition_of windows.now))) }
{
    for window in windows {
        if window.name.as_str().eq_ignore_ascii_case(name) {
            return true;
        }
    }
    false
}

/// Whether no two of the windows have one name. (Window Functions)
pub fn are_distinct(windows: &[NamedWindow]) -> bool
    ensures { result ≡ spec.are_distinct (spec.window_names (definitions_of (map definition_of windows.now))) }
{
    for at in 0..windows.len() {
        if is_among(windows[at].name.as_str(), &windows[at + 1..]) {
            return false;
        }
    }
    true
}

// A window, with its name.
fn named_window<I: InnerQueries, P: Place>(
    alloc: Global,
    inner: &I,
    place: &P,
    definition: &NamedWindow,
) -> Result<Defined, Fault>
    ensures { Gives defined_of result (named_window (I.answers inner.now) (P.meaning place.now) (definition_of definition.now)) }
{
    let window = window(alloc, inner, place, &definition.window)?;
    let name = String::from_str(alloc, definition.name.as_str())?;
    Ok(Defined { name, window })
}

/// The windows, over the rows of FROM or of groups. The fault is one of `window`. (Window Functions)
pub fn defined_windows<I: InnerQueries, P: Place>(
    alloc: Global,
    inner: &I,
    place: &P,
    windows: &[NamedWindow],
) -> Result<Vec<Defined>, Fault>
    ensures { Gives (λ v. map defined_of v.items) result
        (spec.defined_of (I.answers inner.now) (P.meaning place.now) (definitions_of (map definition_of windows.now))) }
{
    let mut defined = Vec::new(alloc);
    for definition in windows {
        let next = named_window(alloc, inner, place, definition)?;
        defined.push(next)?;
    }
    Ok(defined)
}
