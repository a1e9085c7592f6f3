//! What a source is called alone, and which queries and terms a SELECT has inside it.
ghost use Rattle.std.specs.Prelude.{◌≡◌, IfOk, map, option_map, position, string_bytes};
ghost use Rattle.std.specs.Str.{str_eq_ignore_ascii_case};
ghost use Rattle.sql_reader_grammar.specs.Reading.{terms_of};
ghost use Rattle.sql_reader_grammar.specs.statement_trees.StatementView.{item_of};
ghost use Rattle.sql_reader_grammar.specs.statement_trees.TreeView.{expr_of, query_of as tree_of, term_of};
ghost use Rattle.semantics_names.specs.Parts.{inner_tree};
ghost use Rattle.explain_labels.specs.Labels as spec;
ghost use Rattle.explain_labels.specs.View.{label_of, names_seen};

use crate::labels::SourceLabel;
use sql_reader_grammar::{CommonTableExpr, Expr, OrderingTerm, Query};
use std::alloc::{AllocError, Global};

pub(crate) fn copy_alias(
    alloc: Global,
    alias: &Option<String>,
) -> Result<Option<String>, AllocError>
    ensures { IfOk result (λ copy. option_map (λ text. string_bytes text) copy ≡ option_map (λ text. string_bytes text) alias.now) }
{
    match alias {
        None => Ok(None),
        Some(alias) => Ok(Some(String::from_str(alloc, alias.as_str())?)),
    }
}

/// Whether a name mentions an item.
fn is_called(item: &CommonTableExpr, name: &str) -> bool
    ensures { result ≡ str_eq_ignore_ascii_case (item_of item.now).name name.now }
{
    item.name.as_str().eq_ignore_ascii_case(name)
}

/// The place of the first item that a name mentions.
fn item_named(items: &[CommonTableExpr], name: &str) -> Option<usize>
    ensures { result ≡ position (λ item. str_eq_ignore_ascii_case (item_of item).name name.now) items.now }
{
    items.iter().position(|item| is_called(item, name))
}

/// A mention of an item of WITH where one is called so, and else a table.
pub(crate) fn called(
    alloc: Global,
    items: &[CommonTableExpr],
    name: &str,
    alias: &Option<String>,
) -> Result<SourceLabel, AllocError>
    ensures { IfOk result (λ label. label_of label
        ≡ spec.called (position (λ item. str_eq_ignore_ascii_case item name.now) (names_seen items.now))
        (option_map (λ text. string_bytes text) alias.now)) }
{
    let alias = copy_alias(alloc, alias)?;
    match item_named(items, name) {
        Some(at) => Ok(SourceLabel::Item(at, alias)),
        None => Ok(SourceLabel::Table(alias)),
    }
}

/// The query that a part of an expression has inside it.
pub(crate) fn query_inside(part: &Expr) -> Option<&Query>
    ensures { option_map (λ query. tree_of query.now) result ≡ option_map spec.query_in (inner_tree (expr_of part.now)) }
{
    match part {
        Expr::InQuery(_, _, query) | Expr::Exists(query) => Some(query),
        _ => None,
    }
}

/// The terms of ORDER BY over the rows of a query's one SELECT. Over the rows of several no query is inside them.
pub(crate) fn own_order<'a>(query: &Query, order: &'a [OrderingTerm]) -> &'a [OrderingTerm]
    ensures { terms_of (map term_of result.now) ≡ spec.own_order (tree_of query.now) (terms_of (map term_of order.now)) }
{
    if query.others.as_slice().is_empty() {
        order
    } else {
        &[]
    }
}
