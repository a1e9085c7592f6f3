//! Queries, with the queries in their FROM and in their expressions.
ghost use Rattle.std.specs.Prelude.{[], Ok, map};
ghost use Rattle.resolver_bodies.specs.BodyView.{body_of, inner_of, joined_of, single_of, source_of, tables_of};
ghost use Rattle.resolver_types.specs.body_types.RowView.{row_of};
ghost use Rattle.resolver_types.specs.body_types.Rows as rows;
ghost use Rattle.semantics_names.specs.Outcome.{each};
ghost use Rattle.semantics_names.specs.Types as spec;
ghost use Rattle.resolver_terms.specs.Outcome.{Gives};

use crate::body_types::columns::{one_types, schema_types, single_type, table_types};
use crate::body_types::computed::{column_types, computed_behind};
use crate::body_types::rows::Row;
use crate::term_types::condition_type;
use expr_types::RowTypes;
use resolver_bodies::{Body, InnerQuery, Joined, Single, Source, Tables};
use std::alloc::Global;
use values::{Fault, Ty};

// The types of a source's columns. The fault is one of `table_types`, or of the query that it is.
#[cycle(bodies)]
fn source_types(alloc: Global, tables: &[Vec<Ty>], source: &Source) -> Result<Vec<Ty>, Fault>
    ensures { Gives (λ v. v.items) result (spec.source_types (map (λ t. t.items) tables.now) (source_of source.now)) }
{
    match source {
        Source::Table(place, width) => table_types(alloc, tables, *place, *width),
        Source::Schema => Ok(schema_types(alloc)?),
        Source::Derived(body) => body_types(alloc, tables, body),
    }
}

// The types of these columns, and of those of one source more. The fault is one of `source_types`, or `TypeMismatch` where ON is no
// whole number.
#[cycle(bodies)]
fn joined_to(
    alloc: Global,
    tables: &[Vec<Ty>],
    answers: &[Ty],
    left: Vec<Ty>,
    joined: &Joined,
) -> Result<Vec<Ty>, Fault>
    ensures { Gives (λ v. v.items) result
        (rows.joined_to (map (λ t. t.items) tables.now) answers.now left.items (joined_of joined.now)) }
{
    let mut right = source_types(alloc, tables, &joined.source)?;
    let mut columns = left;
    columns.append(&mut right)?;
    let both = RowTypes {
        columns: columns.as_slice(),
        answers,
    };
    let _number = condition_type(&both, &joined.condition)?;
    Ok(columns)
}

// The types of the columns of sources that are joined. The fault is one of `joined_to`.
#[cycle(bodies)]
fn all_joined(
    alloc: Global,
    tables: &[Vec<Ty>],
    answers: &[Ty],
    sources: &[Joined],
) -> Result<Vec<Ty>, Fault>
    ensures { Gives (λ v. v.items) result
        (rows.all_joined (map (λ t. t.items) tables.now) answers.now (Ok []) (map joined_of sources.now)) }
{
    let mut columns = Vec::new(alloc);
    for joined in sources {
        columns = joined_to(alloc, tables, answers, columns, joined)?;
    }
    Ok(columns)
}

// The type of the answer of an inner query. The fault is one of the query, or `ColumnCount` where IN takes not one column.
#[cycle(bodies)]
fn inner_type(alloc: Global, tables: &[Vec<Ty>], query: &InnerQuery) -> Result<Ty, Fault>
    ensures { Gives (λ ty. ty) result (spec.inner_type (map (λ t. t.items) tables.now) (inner_of query.now)) }
{
    match query {
        InnerQuery::Values(body) => {
            let types = body_types(alloc, tables, body)?;
            single_type(types.as_slice())
        }
        InnerQuery::Exists(body) => {
            let _types = body_types(alloc, tables, body)?;
            Ok(Ty::Int)
        }
    }
}

// The types of the answers of inner queries. The fault is one of `inner_type`.
#[cycle(bodies)]
fn answer_types(alloc: Global, tables: &[Vec<Ty>], queries: &[InnerQuery]) -> Result<Vec<Ty>, Fault>
    ensures { Gives (λ v. v.items) result (each (spec.inner_type (map (λ t. t.items) tables.now)) (map inner_of queries.now)) }
{
    let mut types = Vec::new(alloc);
    for query in queries {
        let ty = inner_type(alloc, tables, query)?;
        types.push(ty)?;
    }
    Ok(types)
}

// What a SELECT stands on: the rows of its FROM. The fault is one of `answer_types` and of `all_joined`.
#[cycle(bodies)]
fn from_row(alloc: Global, tables: &[Vec<Ty>], from: &Tables) -> Result<Row, Fault>
    ensures { Gives row_of result (rows.from_row (map (λ t. t.items) tables.now) (tables_of from.now)) }
{
    let answers = answer_types(alloc, tables, from.inner.as_slice())?;
    let columns = all_joined(alloc, tables, answers.as_slice(), from.sources.as_slice())?;
    Ok(Row { columns, answers })
}

/// The rows that the result columns of a SELECT, and its ORDER BY, stand over. The fault is one of `body_types`. (SELECT,
/// "Generation of the set of result rows")
#[cycle(bodies)]
pub fn computed_row(alloc: Global, tables: &[Vec<Ty>], single: &Single) -> Result<Row, Fault>
    ensures { Gives row_of result
        (rows.computed_row (map (λ t. t.items) tables.now) (single_of single.now).from (single_of single.now).select) }
{
    let from = from_row(alloc, tables, &single.tables)?;
    computed_behind(alloc, from, &single.select)
}

// The types of the result columns of a SELECT. The fault is one of `body_types`.
#[cycle(bodies)]
fn single_types(alloc: Global, tables: &[Vec<Ty>], single: &Single) -> Result<Vec<Ty>, Fault>
    ensures { Gives (λ v. v.items) result
        (rows.single_types (map (λ t. t.items) tables.now) (single_of single.now).from (single_of single.now).select) }
{
    let over = computed_row(alloc, tables, single)?;
    column_types(alloc, &over, &single.select)
}

/// The types of the result columns of a query, over tables whose columns have these types. The fault is `TypeMismatch` where a term
/// has no type, a condition is no whole number, two columns of SELECTs that are joined have not one type, or there is no such table;
/// `ColumnCount` where a table, an inner query of IN or a SELECT that is joined has not so many columns; `BadFrame` of a window's
/// frame or of a function's number; or `NoMemory`. (SELECT; STRICT Tables)
#[cycle(bodies)]
pub fn body_types(alloc: Global, tables: &[Vec<Ty>], body: &Body) -> Result<Vec<Ty>, Fault>
    ensures { Gives (λ v. v.items) result (spec.body_types (map (λ t. t.items) tables.now) (body_of body.now)) }
{
    match body {
        Body::Select(single) => single_types(alloc, tables, single),
        Body::Compound(left, _, single) => {
            let first = body_types(alloc, tables, left)?;
            let last = single_types(alloc, tables, single)?;
            one_types(alloc, first.as_slice(), last.as_slice())
        }
    }
}
