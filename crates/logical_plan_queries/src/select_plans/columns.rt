//! The columns that a query reads of the rows of FROM.
ghost use Rattle.std.specs.Prelude.{◌≡◌, ◌++◌, ◌+◌, IfOk, OnOk, flat_map, length, map};
ghost use Rattle.expr.specs.Columns.{columns_of};
ghost use Rattle.semantics.specs.Hits.{key_terms, order_terms};
ghost use Rattle.semantics.specs.Query.{from_width};
ghost use Rattle.logical_plan_terms.specs.Over.{AreWhole};
ghost use Rattle.logical_plan_queries.specs.select_plans.Read.{AreRead, IsReadOf, reads_all, row_terms, terms_in};
ghost use Rattle.resolver_terms.specs.SelectView.{key_of, key_term_of, select_of};
ghost use Rattle.std.specs.List.{range_with_len};
ghost use Rattle.std.specs.List.Sorted.{IsStrictlyIncreasing};
ghost use Rattle.logical_plan_terms.specs.table_plans.Input.{from_of, input_from};
ghost use Rattle.logical_plan_terms.specs.table_plans.Planned.{on_terms};

use expr::columns;
use logical_plan_terms::{
    Input, JoinedTable, push_columns_of_all, push_group_columns, read_columns,
};
use resolver_terms::{Key, KeyTerm, Select};
use std::alloc::{AllocError, Global};

/// Puts the columns that a term of ORDER BY names at the end of a list.
fn push_key(key: &KeyTerm, out: &mut Vec<usize>) -> Result<(), AllocError>
    ensures { OnOk result (out.new.items ≡ out.old.items ++ flat_map columns_of (key_terms (key_term_of key.now))) }
{
    match key {
        KeyTerm::Result(_) => Ok(()),
        KeyTerm::Term(t) => columns(t, out),
    }
}

/// Puts the columns that ORDER BY names at the end of a list.
fn push_order(order: &[Key], out: &mut Vec<usize>) -> Result<(), AllocError>
    ensures { OnOk result (out.new.items ≡ out.old.items ++ flat_map columns_of (order_terms (map key_of order.now))) }
{
    for key in order {
        push_key(&key.by, out)?;
    }
    Ok(())
}

/// Puts the columns that a SELECT names on the rows of FROM behind WHERE at the end of a list: those of GROUP BY and of the arguments
/// of aggregates where there are groups, else those of the result columns and of ORDER BY.
fn push_row_columns(select: &Select, order: &[Key], out: &mut Vec<usize>) -> Result<(), AllocError>
    ensures { OnOk result (out.new.items ≡ out.old.items
        ++ flat_map columns_of (row_terms (select_of select.now).grouping ((select_of select.now).columns ++ order_terms (map key_of order.now)))) }
{
    match &select.grouping {
        Some(grouping) => push_group_columns(grouping, out),
        None => {
            push_columns_of_all(select.columns.as_slice(), out)?;
            push_order(order, out)
        }
    }
}

/// Puts the columns that the ON of each of these tables names at the end of a list.
fn push_on(tables: &[JoinedTable], out: &mut Vec<usize>) -> Result<(), AllocError>
    ensures { OnOk result (out.new.items ≡ out.old.items ++ flat_map columns_of (on_terms (from_of tables.now))) }
{
    for table in tables {
        columns(table.condition, out)?;
    }
    Ok(())
}

/// The columns that a SELECT, its ORDER BY and the ON of each of its tables name on the rows of FROM, each once and in their order.
fn columns_named(
    alloc: Global,
    input: &Input,
    select: &Select,
    order: &[Key],
) -> Result<Vec<usize>, AllocError>
    ensures read { IfOk result (λ read. AreRead read.items (terms_in (input_from input.now) (select_of select.now) (map key_of order.now))) }
    ensures once { IfOk result (λ read. IsStrictlyIncreasing read.items) }
{
    let mut named = Vec::new(alloc);
    columns(&select.condition, &mut named)?;
    push_row_columns(select, order, &mut named)?;
    push_on(input.tables.as_slice(), &mut named)?;
    Ok(read_columns(named))
}

/// Puts so many columns more behind those of a row, each of which stands in its place.
pub(crate) fn push_places(count: usize, out: &mut Vec<usize>) -> Result<(), AllocError>
    requires { AreWhole out.old.items }
    ensures { OnOk result (out.new.items ≡ range_with_len 0 (length out.old.items + count)) }
{
    for _ in 0..count {
        let at = out.len();
        out.push(at)?;
    }
    Ok(())
}

/// Each column of tables side by side.
fn all_columns(alloc: Global, tables: &[JoinedTable]) -> Result<Vec<usize>, AllocError>
    ensures { IfOk result (λ columns. columns.items ≡ range_with_len 0 (from_width (from_of tables.now))) }
{
    let mut columns = Vec::new(alloc);
    for table in tables {
        push_places(table.width, &mut columns)?;
    }
    Ok(columns)
}

/// Whether each column is read: where windows take the rows of FROM themselves.
fn is_all_read(select: &Select) -> bool
    ensures { result ≡ reads_all (select_of select.now).windows (select_of select.now).grouping }
{
    !select.windows.is_empty() && select.grouping.is_none()
}

/// The columns that are read of the rows of FROM: each where windows take these, since a window puts rows that its ORDER BY doesn't
/// tell apart in the order of all their values; elsewhere those that are named.
pub(crate) fn columns_read(
    alloc: Global,
    input: &Input,
    select: &Select,
    order: &[Key],
) -> Result<Vec<usize>, AllocError>
    ensures read { IfOk result (λ read. IsReadOf (input_from input.now) (select_of select.now) (map key_of order.now) read.items) }
    ensures once { IfOk result (λ read. IsStrictlyIncreasing read.items) }
{
    if is_all_read(select) {
        return all_columns(alloc, input.tables.as_slice());
    }
    columns_named(alloc, input, select, order)
}
