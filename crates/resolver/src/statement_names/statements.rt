//! Whole statements.
ghost use Rattle.std.specs.Prelude.{◌≡◌, IfOk, map};
ghost use Rattle.resolver_bodies.specs.BodyView.{body_of};
ghost use Rattle.semantics_names.specs.Statement as spec;
ghost use Rattle.resolver_terms.specs.Outcome.{Gives};
ghost use Rattle.resolver_sources.specs.source_names.GivenView.{known_of, queried_of};
ghost use Rattle.resolver_bodies.specs.NamedView.{named_data};
ghost use Rattle.resolver.specs.statement_names.WithView.{with_data};
ghost use Rattle.resolver.specs.statement_names.Whole.{behind_items, named_by, slice_of, sliced};
ghost use Rattle.sql_reader_grammar.specs.statement_trees.StatementView.{statement_of};

use crate::query_names::{MAX_LEVELS, query_within};
use crate::statement_names::counting::is_within;
use crate::statement_names::items::{With, item_names, with_items};
use crate::statement_names::limits::limits;
use crate::statement_names::names::are_distinct;
use resolver_bodies::{Body, NamedStatement, Query};
use resolver_sources::{Known, Queried};
use sql_reader_grammar::Statement;
use std::alloc::{AllocError, Global};
use values::Fault;

// LIMIT and OFFSET of a statement that has this query. The fault is `Limit` where that has more sources than it may have, or one of
// `limits`.
fn slice(statement: &Statement, body: &Body) -> Result<(Option<i64>, i64), Fault>
    ensures { Gives (λ n. n) result (slice_of (statement_of statement.now) (body_of body.now)) }
{
    if !is_within(body) {
        return Err(Fault::Limit);
    }
    limits(statement.limit, statement.offset)
}

// A query with this LIMIT and OFFSET, and what was written before it.
fn sliced(
    written: Vec<Body>,
    query: Queried,
    slice: (Option<i64>, i64),
) -> Result<NamedStatement, AllocError>
    ensures { IfOk result (λ s. named_data s ≡ sliced (map body_of written.items) (queried_of query) slice) }
{
    let (limit, offset) = slice;
    let mut beside = written;
    let mut in_query = query.beside;
    beside.append(&mut in_query)?;
    Ok(NamedStatement {
        query: Query {
            body: query.body,
            order: query.order,
            limit,
            offset,
        },
        names: query.names,
        beside,
    })
}

// A statement that has this query, and what was written before it. The fault is one of `slice`.
fn ended(statement: &Statement, written: Vec<Body>, query: Queried) -> Result<NamedStatement, Fault>
    ensures { Gives named_data result (spec.ended (statement_of statement.now) (map body_of written.items) (queried_of query)) }
{
    let slice = slice(statement, &query.body)?;
    Ok(sliced(written, query, slice)?)
}

// A statement behind its WITH. The fault is one of `query_within` and of `ended`.
fn behind_items(
    alloc: Global,
    depth: usize,
    with: With,
    statement: &Statement,
) -> Result<NamedStatement, Fault>
    ensures { Gives named_data result (behind_items (spec.queried depth) (statement_of statement.now) (with_data with)) }
{
    let order = statement.order.as_slice();
    let query = query_within(alloc, with.known.as_slice(), depth, &statement.query, order)?;
    ended(statement, with.beside, query)
}

// A statement over these tables, where at most so many queries may stand in one another. The fault is `DuplicateName` where two items
// of WITH are called the same, or one of `with_items` and of `behind_items`.
fn named_within(
    alloc: Global,
    depth: usize,
    tables: Vec<Known>,
    statement: &Statement,
) -> Result<NamedStatement, Fault>
    ensures { Gives named_data result (named_by (spec.queried depth) (map known_of tables.items) (statement_of statement.now)) }
{
    let items = statement.items.as_slice();
    let names = item_names(alloc, items)?;
    if !are_distinct(names.as_slice()) {
        return Err(Fault::DuplicateName);
    }
    let with = With {
        known: tables,
        beside: Vec::new(alloc),
    };
    let with = with_items(alloc, depth, with, items)?;
    behind_items(alloc, depth, with, statement)
}

/// The query of a statement over these tables, by its names. The fault is `DuplicateName` where two items of WITH, two columns behind
/// an item's name, two sources of a FROM or two windows of a SELECT are called the same; `Limit` of more sources, columns or queries
/// in one another than there may be; `ColumnCount` where there are not as many columns as names, as other SELECTs have, or as an IN
/// takes; one of the names in it; or `NoMemory`. (SELECT)
pub fn named_statement(
    alloc: Global,
    tables: Vec<Known>,
    statement: &Statement,
) -> Result<NamedStatement, Fault>
    ensures { Gives named_data result (spec.named (map known_of tables.items) (statement_of statement.now)) }
{
    named_within(alloc, MAX_LEVELS, tables, statement)
}
