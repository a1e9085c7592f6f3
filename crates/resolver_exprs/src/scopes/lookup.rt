//! The column of a name.
ghost use Rattle.std.specs.Prelude.{◌≡◌, ◌≤◌, [], None, drop, length, option_map, IfOk, MatchOption, string_bytes};
ghost use Rattle.semantics_names.specs.Scope as spec;
ghost use Rattle.semantics_names.specs.Statement as statement;
ghost use Rattle.resolver_terms.specs.Outcome.{Gives};
ghost use Rattle.expr.specs.View.{term};
ghost use Rattle.resolver_exprs.specs.scopes.Next.{IsNext};

use crate::scopes::Shown;
use expr::Expr;
use std::alloc::{AllocError, Global};
use values::Fault;

/// The place of the first column that is called so, from this place on.
fn next_called(scope: &[Shown], from: usize, table: Option<&str>, name: &str) -> Option<usize>
    requires { from ≤ length scope.now }
    ensures { let all = spec.called (option_map (λ t. t.now) table.entry) name.now from (drop from scope.now) in
        MatchOption result (all ≡ []) (λ at. IsNext (option_map (λ t. t.now) table.entry) name.now scope.now at all) }
{
    for at in from..scope.len() {
        if scope[at].is_called(table, name) {
            return Some(at);
        }
    }
    None
}

/// The term of the one column that is called so. The fault is `UnknownColumn` where none is, `Ambiguous` where two are, or
/// `NoMemory`.
pub(crate) fn column(
    alloc: Global,
    scope: &[Shown],
    table: Option<&str>,
    name: &str,
) -> Result<Expr, Fault>
    ensures { Gives term result (spec.column_of scope.now (option_map (λ t. t.now) table.entry) name.now) }
{
    let Some(at) = next_called(scope, 0, table, name) else {
        return Err(Fault::UnknownColumn);
    };
    if next_called(scope, at + 1, table, name).is_some() {
        return Err(Fault::Ambiguous);
    }
    Ok(scope[at].term(alloc, table, at)?)
}

/// The places at which the one column of this bare name looks. The fault is `UnknownColumn` where none is called so, `Ambiguous`
/// where two are, or `NoMemory`.
pub(crate) fn places(scope: &[Shown], name: &str) -> Result<Vec<usize>, Fault>
    ensures { Gives (λ v. v.items) result (spec.places_of scope.now None name.now) }
{
    let Some(at) = next_called(scope, 0, None, name) else {
        return Err(Fault::UnknownColumn);
    };
    if next_called(scope, at + 1, None, name).is_some() {
        return Err(Fault::Ambiguous);
    }
    Ok(scope[at].places()?)
}

/// The name of the first column that is called so, as its source declares it; where none is, the name that is written.
pub(crate) fn declared_name(
    alloc: Global,
    scope: &[Shown],
    table: Option<&str>,
    name: &str,
) -> Result<String, AllocError>
    ensures { IfOk result (λ s. string_bytes s ≡ statement.declared_name scope.now (option_map (λ t. t.now) table.entry) name.now) }
{
    for shown in scope {
        if shown.is_called(table, name) {
            return shown.name(alloc);
        }
    }
    String::from_str(alloc, name)
}
