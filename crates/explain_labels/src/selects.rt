//! The labels of SELECTs in one another.
ghost use Rattle.std.specs.Prelude.{◌≡◌, ◌++◌, IfOk, OnOk, map, option_map, option_to_list};
ghost use Rattle.sql_reader_grammar.specs.Reading.{terms_of};
ghost use Rattle.sql_reader_grammar.specs.statement_trees.TreeView.{arranged_of, core_of, expr_of, joined_of, maybe_from, query_of as tree_of, source_of, sources_of, term_of};
ghost use Rattle.sql_reader_syntax.specs.ExprTree.{TermTrees};
ghost use Rattle.semantics_names.specs.Parts.{inner_tree, inner_trees};
ghost use Rattle.explain_labels.specs.Labels as spec;
ghost use Rattle.explain_labels.specs.Labels.{labelled, labelled_inside};
ghost use Rattle.explain_labels.specs.View.{label_of, names_seen, query_of, select_of};

use crate::labels::{QueryLabels, SelectLabels, SourceLabel};
use crate::names::{called, copy_alias, own_order, query_inside};
use resolver_exprs::core_parts;
use sql_reader_grammar::{
    CommonTableExpr, CompoundArm, Expr, Joined, OrderingTerm, Query, SelectCore, Source, Sources,
};
use std::alloc::{AllocError, Global};

/// The items of WITH that are seen, and how many queries may be in one another.
#[derive(Clone, Copy)]
pub(crate) struct Seen<'a> {
    pub(crate) items: &'a [CommonTableExpr],
    pub(crate) depth: usize,
}

#[cycle(labels)]
fn source_label(alloc: Global, seen: Seen<'_>, source: &Source) -> Result<SourceLabel, AllocError>
    ensures { IfOk result (λ label. label_of label
        ≡ spec.source_label (names_seen seen.entry.items.now) (labelled_inside seen.entry.depth (names_seen seen.entry.items.now)) (source_of source.now)) }
{
    match source {
        Source::Table(name, alias) => called(alloc, seen.items, name.as_str(), alias),
        Source::Derived(query, alias) => {
            let labels = query_labels(alloc, seen, query, &[])?;
            let alias = copy_alias(alloc, alias)?;
            Ok(SourceLabel::Derived(Box::new(alloc, labels)?, alias))
        }
    }
}

// Adds those of sources that are joined.
#[cycle(labels)]
fn add_joined(
    alloc: Global,
    seen: Seen<'_>,
    others: &[Joined],
    labels: &mut Vec<SourceLabel>,
) -> Result<(), AllocError>
    ensures { OnOk result (map label_of labels.new.items ≡ map label_of labels.old.items
        ++ map (λ j. spec.source_label (names_seen seen.entry.items.now) (labelled_inside seen.entry.depth (names_seen seen.entry.items.now)) j.1.0) (map joined_of others.now)) }
{
    for next in others {
        labels.push(source_label(alloc, seen, &next.source)?)?;
    }
    Ok(())
}

// Those of the sources of FROM, of which there is one at least.
#[cycle(labels)]
fn sources_labels(
    alloc: Global,
    seen: Seen<'_>,
    from: &Sources,
) -> Result<Vec<SourceLabel>, AllocError>
    ensures { IfOk result (λ labels. map label_of labels.items
        ≡ spec.from_labels (names_seen seen.entry.items.now) (labelled_inside seen.entry.depth (names_seen seen.entry.items.now)) (sources_of from.now)) }
{
    let mut labels = Vec::new(alloc);
    labels.push(source_label(alloc, seen, &from.first)?)?;
    add_joined(alloc, seen, from.others.as_slice(), &mut labels)?;
    Ok(labels)
}

/// The labels of the sources of FROM.
#[cycle(labels)]
fn from_labels(
    alloc: Global,
    seen: Seen<'_>,
    from: &Option<Sources>,
) -> Result<Vec<SourceLabel>, AllocError>
    ensures { IfOk result (λ labels. map label_of labels.items
        ≡ spec.from_labels (names_seen seen.entry.items.now) (labelled_inside seen.entry.depth (names_seen seen.entry.items.now)) (maybe_from (option_map sources_of from.now))) }
{
    match from {
        None => Ok(Vec::new(alloc)),
        Some(from) => sources_labels(alloc, seen, from),
    }
}

// Adds those of the query that a part of an expression has inside it, if it has one.
#[cycle(labels)]
fn add_inside(
    alloc: Global,
    seen: Seen<'_>,
    part: &Expr,
    labels: &mut Vec<QueryLabels>,
) -> Result<(), AllocError>
    ensures { OnOk result (map query_of labels.new.items ≡ map query_of labels.old.items
        ++ map (λ tree. labelled_inside seen.entry.depth (names_seen seen.entry.items.now) (spec.query_in tree)) (option_to_list (inner_tree (expr_of part.now)))) }
{
    match query_inside(part) {
        None => Ok(()),
        Some(query) => {
            let inside = query_labels(alloc, seen, query, &[])?;
            labels.push(inside)?;
            Ok(())
        }
    }
}

/// The labels of the queries inside the expressions of a SELECT, and inside its ORDER BY.
#[cycle(labels)]
fn inner_labels(
    alloc: Global,
    seen: Seen<'_>,
    core: &SelectCore,
    order: &[OrderingTerm],
) -> Result<Vec<QueryLabels>, AllocError>
    ensures { IfOk result (λ labels. map query_of labels.items
        ≡ map (λ tree. labelled_inside seen.entry.depth (names_seen seen.entry.items.now) (spec.query_in tree))
        (inner_trees (core_of core.now) (terms_of (map term_of order.now)))) }
{
    let parts = core_parts(alloc, core, order)?;
    let mut labels = Vec::new(alloc);
    for part in &parts {
        add_inside(alloc, seen, part, &mut labels)?;
    }
    Ok(labels)
}

#[cycle(labels)]
fn select_labels(
    alloc: Global,
    seen: Seen<'_>,
    core: &SelectCore,
    order: &[OrderingTerm],
) -> Result<SelectLabels, AllocError>
    ensures { IfOk result (λ labels. select_of labels
        ≡ spec.core_labels (names_seen seen.entry.items.now) (labelled_inside seen.entry.depth (names_seen seen.entry.items.now)) (core_of core.now)
        (terms_of (map term_of order.now))) }
{
    let sources = from_labels(alloc, seen, &core.sources)?;
    let inner = inner_labels(alloc, seen, core, order)?;
    Ok(SelectLabels { sources, inner })
}

// Adds those of SELECTs that are joined.
#[cycle(labels)]
fn add_arms(
    alloc: Global,
    seen: Seen<'_>,
    arms: &[CompoundArm],
    labels: &mut Vec<SelectLabels>,
) -> Result<(), AllocError>
    ensures { OnOk result (map select_of labels.new.items ≡ map select_of labels.old.items
        ++ map (λ arm. spec.core_labels (names_seen seen.entry.items.now) (labelled_inside seen.entry.depth (names_seen seen.entry.items.now)) arm.1 TermTrees.No_term)
        (map arranged_of arms.now)) }
{
    for arm in arms {
        labels.push(select_labels(alloc, seen, &arm.core, &[])?)?;
    }
    Ok(())
}

/// The labels of a query with its ORDER BY, and of the queries in it, which may be in one another to the depth that is seen: none
/// where they are deeper, as in no statement.
#[cycle(labels)]
pub(crate) fn query_labels(
    alloc: Global,
    seen: Seen<'_>,
    query: &Query,
    order: &[OrderingTerm],
) -> Result<QueryLabels, AllocError>
    ensures { IfOk result (λ labels. query_of labels
        ≡ labelled seen.entry.depth (names_seen seen.entry.items.now) (tree_of query.now) (terms_of (map term_of order.now))) }
{
    let mut selects = Vec::new(alloc);
    if seen.depth == 0 {
        return Ok(QueryLabels { selects });
    }
    let below = Seen {
        items: seen.items,
        depth: seen.depth - 1,
    };
    let first = select_labels(alloc, below, &query.first, own_order(query, order))?;
    selects.push(first)?;
    add_arms(alloc, below, query.others.as_slice(), &mut selects)?;
    Ok(QueryLabels { selects })
}
