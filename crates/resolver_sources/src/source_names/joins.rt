//! Sources that are joined from the left.
ghost use Rattle.std.specs.Prelude.{◌≡◌, map, option_map, string_bytes};
ghost use Rattle.std.specs.List.{list_any};
ghost use Rattle.resolver_bodies.specs.BodyView.{joined_of, source_of};
ghost use Rattle.semantics.specs.Query.{JoinKind};
ghost use Rattle.semantics_names.specs.Sources as spec;
ghost use Rattle.resolver_terms.specs.Outcome.{Gives};
ghost use Rattle.expr.specs.View.{term};
ghost use Rattle.resolver_sources.specs.source_names.GivenView.{given_of, joined_data, sources_of};
ghost use Rattle.sql_reader_grammar.specs.statement_trees.TreeView.{on_of};
ghost use Rattle.sql_reader_syntax.specs.ExprTree.{OnTree};

use crate::source_names::Given;
use crate::source_names::columns::shown_from;
use crate::source_names::conditions::joined_on;
use expr::Expr;
use resolver_bodies::{Body, Joined, Source};
use resolver_exprs::{InnerQueries, Scope};
use sql_reader_grammar::JoinCondition;
use sql_reader_syntax::Join;
use std::alloc::Global;
use values::Fault;

/// The sources of a FROM, up to one of them. (SELECT, "Determination of input data")
#[derive(Drop)]
pub struct Sources {
    pub joined: Vec<Joined>,
    /// What they are called, if anything.
    pub names: Vec<Option<String>>,
    /// The columns that they show together.
    pub scope: Scope,
    /// What is written in them and has to be typed by itself.
    pub beside: Vec<Body>,
}

// Whether two sources are called the same, where both have names.
fn is_same_source(a: &Option<String>, b: &Option<String>) -> bool
    ensures { result ≡ spec.is_same_source (option_map (λ n. string_bytes n) a.now) (option_map (λ n. string_bytes n) b.now) }
{
    match (a, b) {
        (Some(a), Some(b)) => a.as_str().eq_ignore_ascii_case(b.as_str()),
        _ => false,
    }
}

// Whether a source is called so.
fn is_among(name: &Option<String>, names: &[Option<String>]) -> bool
    ensures { result ≡ list_any (spec.is_same_source (option_map (λ n. string_bytes n) name.now))
        (map (option_map (λ n. string_bytes n)) names.now) }
{
    for other in names {
        if is_same_source(name, other) {
            return true;
        }
    }
    false
}

// A source, joined so.
fn joined_by(join: Join, source: Source, condition: Expr) -> Joined
    ensures { joined_of result ≡ joined_data (spec.kind_of join) (source_of source) (term condition) }
{
    Joined {
        join,
        source,
        condition,
    }
}

/// A source that is joined to those before it. The fault is `DuplicateName` where one of these is called as it is; one of `term`, of
/// what stands behind ON; of USING `UnknownColumn` where a side has no column of a name, `Ambiguous` where it has two; or `NoMemory`.
/// (SELECT, "Determination of input data")
pub fn join<I: InnerQueries>(
    alloc: Global,
    inner: &I,
    left: Sources,
    join: Join,
    on: &JoinCondition,
    given: Given,
) -> Result<Sources, Fault>
    ensures { Gives sources_of result
        (spec.joined (I.answers inner.now) (sources_of left) (spec.kind_of join) (on_of on.now) (given_of given)) }
{
    let Sources {
        mut joined,
        mut names,
        scope,
        mut beside,
    } = left;
    if is_among(&given.name, names.as_slice()) {
        return Err(Fault::DuplicateName);
    }
    let right = shown_from(alloc, &given.name, scope.len(), given.columns.as_slice())?;
    let condition = joined_on(alloc, inner, on, scope, right)?;
    let Given {
        source,
        name,
        columns: _,
        beside: mut written,
    } = given;
    joined.push(joined_by(join, source, condition.term))?;
    names.push(name)?;
    beside.append(&mut written)?;
    Ok(Sources {
        joined,
        names,
        scope: condition.scope,
        beside,
    })
}

/// The first source of a FROM. The fault is `NoMemory`. (SELECT, "Determination of input data")
pub fn first<I: InnerQueries>(alloc: Global, inner: &I, given: Given) -> Result<Sources, Fault>
    ensures { Gives sources_of result
        (spec.joined (I.answers inner.now) spec.no_sources JoinKind.inner OnTree.Always (given_of given)) }
{
    let none = Sources {
        joined: Vec::new(alloc),
        names: Vec::new(alloc),
        scope: Scope::new(Vec::new(alloc)),
        beside: Vec::new(alloc),
    };
    join(
        alloc,
        inner,
        none,
        Join::Inner,
        &JoinCondition::Always,
        given,
    )
}
