//! The labels of whole statements.
ghost use Rattle.std.specs.Prelude.{◌≡◌, IfOk, map};
ghost use Rattle.sql_reader_grammar.specs.statement_trees.StatementView.{item_of, statement_of};
ghost use Rattle.semantics_names.specs.Statement.{max_levels};
ghost use Rattle.explain_labels.specs.Labels as spec;
ghost use Rattle.explain_labels.specs.View.{item_labels_of, statement_labels_of};

use crate::labels::{ItemLabels, StatementLabels};
use crate::selects::{Seen, query_labels};
use sql_reader_grammar::{CommonTableExpr, Statement};
use std::alloc::{AllocError, Global};

/// The most SELECTs that may be in one another. (Limits In SQLite, "Maximum Depth Of An Expression Tree")
const MAX_LEVELS: usize = 100;

/// The labels of an item of WITH, which sees those before it.
fn item_labels(
    alloc: Global,
    before: &[CommonTableExpr],
    item: &CommonTableExpr,
) -> Result<ItemLabels, AllocError>
    ensures { IfOk result (λ labels. item_labels_of labels
        ≡ record {
          name = (item_of item.now).name;
          query = spec.labelled_inside max_levels (spec.names_of (map item_of before.now)) (item_of item.now).query;
        }) }
{
    let name = String::from_str(alloc, item.name.as_str())?;
    let seen = Seen {
        items: before,
        depth: MAX_LEVELS,
    };
    let query = query_labels(alloc, seen, &item.query, &[])?;
    Ok(ItemLabels { name, query })
}

/// What the sources of a statement are called. (SELECT, "Determination of input data" and "Common Table Expressions")
pub fn statement_labels(alloc: Global, statement: &Statement) -> Result<StatementLabels, AllocError>
    ensures { IfOk result (λ labels. statement_labels_of labels ≡ spec.statement_labels (statement_of statement.now)) }
{
    let written = statement.items.as_slice();
    let mut items = Vec::with_capacity(alloc, written.len())?;
    for (at, item) in written.iter().enumerate() {
        items.push(item_labels(alloc, &written[..at], item)?)?;
    }
    let seen = Seen {
        items: written,
        depth: MAX_LEVELS,
    };
    let query = query_labels(alloc, seen, &statement.query, statement.order.as_slice())?;
    Ok(StatementLabels { items, query })
}
