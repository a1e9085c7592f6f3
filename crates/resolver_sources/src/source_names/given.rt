//! One source of a FROM.
ghost use Rattle.std.specs.Prelude.{◌≡◌, IfOk, Some, map, option_map, string_bytes};
ghost use Rattle.semantics_names.specs.Outcome.{followed};
ghost use Rattle.semantics_names.specs.Sources.{known_as};
ghost use Rattle.semantics_names.specs.Statement as spec;
ghost use Rattle.resolver_terms.specs.Outcome.{Gives};
ghost use Rattle.resolver_sources.specs.source_names.GivenView.{given_of, known_of, queried_of};

use crate::source_names::names::{copy_name, copy_names};
use resolver_bodies::{Body, Source, copy_source};
use resolver_terms::Key;
use std::alloc::{AllocError, Global};
use values::Fault;

/// A name that FROM may mention: a table, or an item of WITH. (SELECT, "Determination of input data", "Common Table Expressions")
#[derive(Drop)]
pub struct Known {
    pub name: String,
    /// None for an item of WITH of more sources than a query may have, which is refused where it is mentioned.
    pub source: Option<Source>,
    pub columns: Vec<String>,
}

/// A query whose names are resolved, in FROM. (SELECT, "Determination of input data")
#[derive(Drop)]
pub struct Queried {
    pub body: Body,
    /// The names of its result columns.
    pub names: Vec<String>,
    pub order: Vec<Key>,
    /// What else is written in it and has to be typed by itself.
    pub beside: Vec<Body>,
}

/// A source of a FROM. (SELECT, "Determination of input data")
#[derive(Drop)]
pub struct Given {
    pub source: Source,
    /// What it is called, if anything.
    pub name: Option<String>,
    pub columns: Vec<String>,
    /// What is written in it and has to be typed by itself.
    pub beside: Vec<Body>,
}

// What an alias, or else the name that is written, calls a source.
fn alias_or(alloc: Global, name: &str, alias: &Option<String>) -> Result<String, AllocError>
    ensures { IfOk result (λ s. Some (string_bytes s) ≡ spec.alias_or name.now (option_map (λ a. string_bytes a) alias.now)) }
{
    match alias {
        None => String::from_str(alloc, name),
        Some(alias) => String::from_str(alloc, alias.as_str()),
    }
}

// A table or an item of WITH, called so.
fn mention(alloc: Global, known: &Known, name: String) -> Result<Given, Fault>
    ensures { Gives given_of result (spec.given_known (Some (string_bytes name)) (known_of known.now)) }
{
    let Some(source) = &known.source else {
        return Err(Fault::Limit);
    };
    let source = copy_source(alloc, source)?;
    let columns = copy_names(alloc, known.columns.as_slice())?;
    Ok(Given {
        source,
        name: Some(name),
        columns,
        beside: Vec::new(alloc),
    })
}

/// The table or the item of WITH of a name: the first that is called so. The fault is `UnknownTable` where none is; `Limit` of an
/// item of WITH of more sources than a query may have; or `NoMemory`. (SELECT, "Determination of input data")
pub fn named(
    alloc: Global,
    known: &[Known],
    name: &str,
    alias: &Option<String>,
) -> Result<Given, Fault>
    ensures { Gives given_of result
        (followed (known_as (map known_of known.now) name.now)
        (spec.given_known (spec.alias_or name.now (option_map (λ a. string_bytes a) alias.now)))) }
{
    for one in known {
        if one.name.as_str().eq_ignore_ascii_case(name) {
            let called = alias_or(alloc, name, alias)?;
            return mention(alloc, one, called);
        }
    }
    Err(Fault::UnknownTable)
}

/// The source that a query in FROM is. (SELECT, "Determination of input data")
pub fn derived(alloc: Global, query: Queried, alias: &Option<String>) -> Result<Given, AllocError>
    ensures { IfOk result (λ given. given_of given
        ≡ spec.given_query (option_map (λ a. string_bytes a) alias.now) (queried_of query)) }
{
    let name = copy_name(alloc, alias)?;
    Ok(Given {
        source: Source::Derived(Box::new(alloc, query.body)?),
        name,
        columns: query.names,
        beside: query.beside,
    })
}
