//! The items of WITH.
ghost use Rattle.std.specs.Prelude.{◌≡◌, IfOk, map, option_map, string_bytes};
ghost use Rattle.values.specs.declared.fault.Fault.TheVariants.{Limit};
ghost use Rattle.resolver_bodies.specs.BodyView.{body_of, source_of};
ghost use Rattle.semantics_names.specs.Outcome.{found_or};
ghost use Rattle.semantics_names.specs.Statement as spec;
ghost use Rattle.resolver_terms.specs.Outcome.{Gives};
ghost use Rattle.resolver_sources.specs.source_names.GivenView.{queried_of};
ghost use Rattle.resolver.specs.statement_names.Whole.{item_by, items_by};
ghost use Rattle.resolver.specs.statement_names.WithView.{with_data};
ghost use Rattle.sql_reader_grammar.specs.statement_trees.StatementView.{item_of};

use crate::query_names::query_within;
use crate::statement_names::counting::is_within;
use crate::statement_names::names::are_distinct;
use resolver_bodies::{Body, Source, copy_body};
use resolver_sources::{Known, Queried, copy_names};
use sql_reader_grammar::CommonTableExpr;
use std::alloc::{AllocError, Global};
use values::Fault;

/// What FROM may mention, and what has to be typed beside the query, mentioned or not.
#[derive(Drop)]
pub(crate) struct With {
    /// The items of WITH, from the last to the first, before the tables, which they hide.
    pub(crate) known: Vec<Known>,
    pub(crate) beside: Vec<Body>,
}

// The source that an item is, or None where it has more sources than a query may have.
fn source(alloc: Global, body: &Body) -> Result<Option<Source>, AllocError>
    ensures { IfOk result (λ s. found_or Limit (option_map source_of s) ≡ spec.within (body_of body.now)) }
{
    if !is_within(body) {
        return Ok(None);
    }
    let body = copy_body(alloc, body)?;
    Ok(Some(Source::Derived(Box::new(alloc, body)?)))
}

// The names of an item's columns: those that are written behind its name, or else those of its query. The fault is `ColumnCount`
// where there are not as many, `DuplicateName` where two are the same, or `NoMemory`.
fn columns(alloc: Global, written: &[String], names: &[String]) -> Result<Vec<String>, Fault>
    ensures { Gives (λ v. map (λ n. string_bytes n) v.items) result
        (spec.item_columns (map (λ n. string_bytes n) written.now) (map (λ n. string_bytes n) names.now)) }
{
    if written.is_empty() {
        return Ok(copy_names(alloc, names)?);
    }
    if written.len() != names.len() {
        return Err(Fault::ColumnCount);
    }
    if !are_distinct(written) {
        return Err(Fault::DuplicateName);
    }
    Ok(copy_names(alloc, written)?)
}

// With an item more, which is this query and has columns of these names.
fn with_item(
    alloc: Global,
    with: With,
    item: &CommonTableExpr,
    query: Queried,
    columns: Vec<String>,
) -> Result<With, AllocError>
    ensures { IfOk result (λ more. with_data more
        ≡ spec.with_item (with_data with) (item_of item.now) (queried_of query) (map (λ n. string_bytes n) columns.items)) }
{
    let source = source(alloc, &query.body)?;
    let name = String::from_str(alloc, item.name.as_str())?;
    let mut known = with.known;
    let next = Known {
        name,
        source,
        columns,
    };
    known.insert(0, next)?;
    let mut beside = with.beside;
    let mut written = query.beside;
    beside.push(query.body)?;
    beside.append(&mut written)?;
    Ok(With { known, beside })
}

// One item more, which sees those before it, where at most so many queries may stand in one another. The fault is one of
// `query_within` and of `columns`.
fn next_item(alloc: Global, depth: usize, with: With, item: &CommonTableExpr) -> Result<With, Fault>
    ensures { Gives with_data result (item_by (spec.queried depth) (with_data with) (item_of item.now)) }
{
    let query = query_within(alloc, with.known.as_slice(), depth, &item.query, &[])?;
    let columns = columns(alloc, item.columns.as_slice(), query.names.as_slice())?;
    Ok(with_item(alloc, with, item, query, columns)?)
}

/// These items more, each of which sees those before it, where at most so many queries may stand in one another. The fault is one of
/// `query_within`; `ColumnCount` where the names behind an item's are not as many as its query's columns, `DuplicateName` where two
/// of them are the same; or `NoMemory`. (SELECT, "Common Table Expressions")
pub(crate) fn with_items(
    alloc: Global,
    depth: usize,
    with: With,
    items: &[CommonTableExpr],
) -> Result<With, Fault>
    ensures { Gives with_data result (items_by (spec.queried depth) (with_data with) (map item_of items.now)) }
{
    let mut all = with;
    for item in items {
        all = next_item(alloc, depth, all, item)?;
    }
    Ok(all)
}

/// The names of items, in their order.
pub(crate) fn item_names(
    alloc: Global,
    items: &[CommonTableExpr],
) -> Result<Vec<String>, AllocError>
    ensures { IfOk result (λ v. map (λ n. string_bytes n) v.items ≡ map (λ i. i.name) (map item_of items.now)) }
{
    let mut names = Vec::new(alloc);
    for item in items {
        names.push(String::from_str(alloc, item.name.as_str())?)?;
    }
    Ok(names)
}
