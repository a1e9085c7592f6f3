//! Compound SELECTs, combined from the left, and ORDER BY.
ghost use Rattle.std.specs.Prelude.{◌≡◌, ◌<◌, IfOk, Ok, length, map, string_bytes};
ghost use Rattle.resolver_bodies.specs.BodyView.{body_of, tables_of};
ghost use Rattle.resolver_sources.specs.from_names.Steps.{stepped};
ghost use Rattle.sql_reader_grammar.specs.Reading.{terms_of};
ghost use Rattle.semantics.specs.Query as q;
ghost use Rattle.semantics_names.specs.Statement as spec;
ghost use Rattle.resolver.specs.query_names.Compounds.{both_joined, joined_to, ordered_by, with_order};
ghost use Rattle.resolver_sources.specs.single_names.SingleView.{single_data};
ghost use Rattle.resolver_terms.specs.Outcome.{Gives};
ghost use Rattle.resolver_terms.specs.SelectView.{key_of, select_of};
ghost use Rattle.resolver_sources.specs.source_names.GivenView.{known_of, queried_of};
ghost use Rattle.sql_reader_grammar.specs.statement_trees.TreeView.{arranged_of, compounds_of, core_of, query_of, term_of};
ghost use Rattle.sql_reader_syntax.specs.ExprTree.{QueryTree, TermTrees};

use resolver_bodies::{Body, Single, Tables};
use resolver_exprs::{Columns, keys};
use resolver_sources::{Inners, Known, NamedSingle, Queried, Queries, single};
use resolver_terms::{Key, Select};
use sql_reader_grammar::{CompoundArm, OrderingTerm, Query, SelectCore};
use sql_reader_syntax::CompoundOperator;
use std::alloc::{AllocError, Global};
use values::Fault;

// One SELECT as a query.
fn simple(single: NamedSingle) -> Queried
    ensures { queried_of result ≡ spec.simple (single_data single) }
{
    let NamedSingle {
        tables,
        named,
        beside,
    } = single;
    Queried {
        body: Body::Select(Single {
            tables,
            select: named.select,
        }),
        names: named.names,
        order: named.order,
        beside,
    }
}

// One SELECT with its ORDER BY. The fault is one of `single`.
fn alone<Q: Queries>(
    alloc: Global,
    queries: &Q,
    known: &[Known],
    core: &SelectCore,
    order: &[OrderingTerm],
) -> Result<Queried, Fault>
    requires { Q.resolves queries.now }
    ensures { Gives queried_of result
        (spec.query_of (map known_of known.now) (Q.meaning queries.now) (QueryTree.Core (core_of core.now)) (terms_of (map term_of order.now))) }
{
    let single = single(alloc, queries, known, core, order)?;
    Ok(simple(single))
}

// A SELECT behind those before it.
fn behind(
    alloc: Global,
    left: Body,
    operator: CompoundOperator,
    tables: Tables,
    select: Select,
) -> Result<Body, AllocError>
    ensures { IfOk result (λ b. body_of b
        ≡ q.Body.compound (body_of left) (spec.operator_of operator) (tables_of tables) (select_of select)) }
{
    let last = Single { tables, select };
    Ok(Body::Compound(Box::new(alloc, left)?, operator, last))
}

// A SELECT behind those before it, as a query.
fn both(
    alloc: Global,
    left: Queried,
    operator: CompoundOperator,
    single: NamedSingle,
) -> Result<Queried, AllocError>
    ensures { IfOk result (λ both. queried_of both ≡ both_joined (queried_of left) operator (single_data single)) }
{
    let NamedSingle {
        tables,
        named,
        beside: mut written,
    } = single;
    let body = behind(alloc, left.body, operator, tables, named.select)?;
    let mut beside = left.beside;
    beside.append(&mut written)?;
    Ok(Queried {
        body,
        names: left.names,
        order: Vec::new(alloc),
        beside,
    })
}

// A SELECT that is joined to those before it. The fault is `ColumnCount` where it has not as many columns, or `NoMemory`.
fn compounded(
    alloc: Global,
    left: Queried,
    operator: CompoundOperator,
    single: NamedSingle,
) -> Result<Queried, Fault>
    ensures { Gives queried_of result (spec.compounded TermTrees.No_term (queried_of left) operator (single_data single)) }
{
    if left.names.len() != single.named.names.len() {
        return Err(Fault::ColumnCount);
    }
    Ok(both(alloc, left, operator, single)?)
}

// One SELECT more. The fault is one of `single` and of `compounded`.
fn joined<Q: Queries>(
    alloc: Global,
    queries: &Q,
    known: &[Known],
    left: Queried,
    next: &CompoundArm,
) -> Result<Queried, Fault>
    requires { Q.resolves queries.now }
    ensures { Gives queried_of result
        (joined_to (map known_of known.now) (Q.meaning queries.now) (queried_of left) (arranged_of next.now)) }
{
    let single = single(alloc, queries, known, &next.core, &[])?;
    compounded(alloc, left, next.operator, single)
}

// These SELECTs more. The fault is one of `joined`.
fn all_joined<Q: Queries>(
    alloc: Global,
    queries: &Q,
    known: &[Known],
    left: Queried,
    others: &[CompoundArm],
) -> Result<Queried, Fault>
    requires { Q.resolves queries.now }
    ensures { Gives queried_of result
        (stepped (joined_to (map known_of known.now) (Q.meaning queries.now)) (Ok (queried_of left)) (map arranged_of others.now)) }
{
    let mut all = left;
    for next in others {
        all = joined(alloc, queries, known, all, next)?;
    }
    Ok(all)
}

// ORDER BY behind SELECTs that are joined, whose columns have these names. The fault is one of `keys`.
fn sort_keys<Q: Queries>(
    alloc: Global,
    queries: &Q,
    names: &[String],
    order: &[OrderingTerm],
) -> Result<Vec<Key>, Fault>
    requires { Q.resolves queries.now }
    ensures { Gives (λ v. map key_of v.items) result
        (spec.keys_of (map (λ n. string_bytes n) names.now) spec.no_row (terms_of (map term_of order.now))) }
{
    let none = Inners::new(queries, &[], &[]);
    let no_rows: Option<&Columns<'_>> = None;
    keys(alloc, &none, no_rows, names, order)
}

// A query in this order.
fn in_order(query: Queried, order: Vec<Key>) -> Queried
    ensures { queried_of result ≡ with_order (queried_of query) (map key_of order.items) }
{
    Queried {
        body: query.body,
        names: query.names,
        order,
        beside: query.beside,
    }
}

// SELECTs that are joined, with their ORDER BY. The fault is one of `sort_keys`.
fn ordered<Q: Queries>(
    alloc: Global,
    queries: &Q,
    query: Queried,
    order: &[OrderingTerm],
) -> Result<Queried, Fault>
    requires { Q.resolves queries.now }
    ensures { Gives queried_of result (ordered_by (terms_of (map term_of order.now)) (queried_of query)) }
{
    let order = sort_keys(alloc, queries, query.names.as_slice(), order)?;
    Ok(in_order(query, order))
}

// SELECTs that are joined, with their ORDER BY. The fault is one of `single`, of `compounded` and of `keys`.
fn compound<Q: Queries>(
    alloc: Global,
    queries: &Q,
    known: &[Known],
    first: &SelectCore,
    others: &[CompoundArm],
    order: &[OrderingTerm],
) -> Result<Queried, Fault>
    requires asked { Q.resolves queries.now }
    requires joined { 0 < length others.now }
    ensures { Gives queried_of result
        (spec.query_of (map known_of known.now) (Q.meaning queries.now)
        (compounds_of (QueryTree.Core (core_of first.now)) (map arranged_of others.now)) (terms_of (map term_of order.now))) }
{
    let left = alone(alloc, queries, known, first, &[])?;
    let all = all_joined(alloc, queries, known, left, others)?;
    ordered(alloc, queries, all, order)
}

// SELECTs, joined from the left, with their ORDER BY. The fault is one of `alone` and of `compound`.
fn selects<Q: Queries>(
    alloc: Global,
    queries: &Q,
    known: &[Known],
    first: &SelectCore,
    others: &[CompoundArm],
    order: &[OrderingTerm],
) -> Result<Queried, Fault>
    requires { Q.resolves queries.now }
    ensures { Gives queried_of result
        (spec.query_of (map known_of known.now) (Q.meaning queries.now)
        (compounds_of (QueryTree.Core (core_of first.now)) (map arranged_of others.now)) (terms_of (map term_of order.now))) }
{
    if others.is_empty() {
        return alone(alloc, queries, known, first, order);
    }
    compound(alloc, queries, known, first, others, order)
}

/// A query with its ORDER BY, where FROM may mention these tables and items of WITH. The fault is one of its names, or of a query in
/// it; `ColumnCount` where SELECTs that are joined have not as many columns, or the query of an IN has not one; `WrongPlace` where
/// ORDER BY behind such SELECTs is an expression; or `NoMemory`. (SELECT)
pub(crate) fn query<Q: Queries>(
    alloc: Global,
    queries: &Q,
    known: &[Known],
    query: &Query,
    order: &[OrderingTerm],
) -> Result<Queried, Fault>
    requires { Q.resolves queries.now }
    ensures { Gives queried_of result
        (spec.query_of (map known_of known.now) (Q.meaning queries.now) (query_of query.now) (terms_of (map term_of order.now))) }
{
    let others = query.others.as_slice();
    selects(alloc, queries, known, &query.first, others, order)
}
