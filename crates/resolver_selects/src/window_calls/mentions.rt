//! The calls over windows of a SELECT.
ghost use Rattle.std.specs.Prelude.{◌≡◌, ◌<◌, ⊤, [], length, map, MatchOption, OnOk};
ghost use Rattle.std.specs.List.{filter_map};
ghost use Rattle.semantics_names.specs.Places as spec;
ghost use Rattle.semantics_names.specs.Same.{is_same_call};
ghost use Rattle.semantics_names.specs.Statement.{firsts, once_more};
ghost use Rattle.resolver_terms.specs.Outcome.{Gives};
ghost use Rattle.resolver_terms.specs.SelectView.{call_of};
ghost use Rattle.sql_reader_grammar.specs.statement_trees.TreeView.{expr_of};
ghost use Rattle.resolver_selects.specs.window_names.DefinedView.{defined_of};

use crate::window_calls::calls::call;
use crate::window_names::Defined;
use resolver_exprs::{InnerQueries, Place};
use resolver_terms::{WindowCall, same_call};
use semantics_names::laws::same_is_equal;
use sql_reader_grammar::Expr;
use std::alloc::{AllocError, Global};
use values::Fault;

/// The place of the first of these calls that is the same.
pub fn call_place(calls: &[WindowCall], call: &WindowCall) -> Option<usize>
    ensures place { result ≡ spec.place_of is_same_call (call_of call.now) (map call_of calls.now) }
    ensures within { MatchOption result ⊤ (λ at. at < length calls.now) }
{
    same_is_equal();
    for (at, other) in calls.iter().enumerate() {
        if same_call(call, other) {
            return Some(at);
        }
    }
    None
}

// Adds a call, unless the same one is there.
fn add_once(calls: &mut Vec<WindowCall>, call: WindowCall) -> Result<(), AllocError>
    ensures { OnOk result (map call_of calls.new.items
        ≡ once_more (spec.place_of is_same_call (call_of call) (map call_of calls.old.items))
        (map call_of calls.old.items) (call_of call)) }
{
    match call_place(calls.as_slice(), &call) {
        Some(_) => Ok(()),
        None => {
            calls.push(call)?;
            Ok(())
        }
    }
}

/// The calls over windows among parts of expressions, each where it is first. The fault is that of the first that has one:
/// one of `term`; `BadFrame` where a window isn't defined, or a distance of its frame is negative; `WrongPlace` where a
/// function isn't one over windows; or `NoMemory`. (Window Functions)
pub fn first_calls<I: InnerQueries, P: Place>(
    alloc: Global,
    inner: &I,
    place: &P,
    defined: &[Defined],
    parts: &[&Expr],
) -> Result<Vec<WindowCall>, Fault>
    ensures { Gives (λ v. map call_of v.items) result
        (firsts is_same_call []
        (filter_map (spec.call_of (I.answers inner.now) (P.meaning place.now) (map defined_of defined.now))
        (map (λ e. expr_of e.now) parts.now))) }
{
    let mut calls = Vec::new(alloc);
    for part in parts {
        let Some(found) = call(alloc, inner, place, defined, part)? else {
            continue;
        };
        add_once(&mut calls, found)?;
    }
    Ok(calls)
}
