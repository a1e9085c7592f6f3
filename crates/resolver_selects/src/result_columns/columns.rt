//! The result columns of a SELECT.
ghost use Rattle.std.specs.Prelude.{map, option_map};
ghost use Rattle.sql_reader_grammar.specs.Reading.{results_of};
ghost use Rattle.semantics_names.specs.Outcome.{each, followed};
ghost use Rattle.semantics_names.specs.Statement as spec;
ghost use Rattle.resolver_terms.specs.Outcome.{Gives};
ghost use Rattle.expr.specs.View.{term};
ghost use Rattle.resolver_selects.specs.result_columns.Inputs as inputs;
ghost use Rattle.resolver_exprs.specs.scopes.ResultView.{result_of};
ghost use Rattle.sql_reader_grammar.specs.statement_trees.TreeView as trees;

use crate::result_columns::inputs::keys;
use crate::result_columns::titles::title;
use expr::Expr;
use resolver_exprs::{InnerQueries, Place, ResultColumn, Scope, term};
use sql_reader_grammar as written;
use std::alloc::Global;
use values::Fault;

// Columns of FROM, over the rows that result columns speak of; some there have to be, or this is the fault.
fn some(
    alloc: Global,
    by: Option<&[Expr]>,
    columns: Vec<ResultColumn>,
    fault: Fault,
) -> Result<Vec<ResultColumn>, Fault>
    ensures { Gives (λ v. map result_of v.items) result
        (followed (spec.some_of fault (map result_of columns.items))
        (each (inputs.over_rows (option_map (λ terms. map term terms.now) by.entry)))) }
{
    if columns.is_empty() {
        return Err(fault);
    }
    match by {
        None => Ok(columns),
        Some(by) => keys(alloc, by, columns.as_slice()),
    }
}

// The result columns that one of them stands for.
fn columns_of<I: InnerQueries, P: Place>(
    alloc: Global,
    inner: &I,
    place: &P,
    scope: &Scope,
    by: Option<&[Expr]>,
    column: &written::ResultColumn,
) -> Result<Vec<ResultColumn>, Fault>
    ensures { let input = inputs.input_of (option_map (λ terms. map term terms.now) by.entry) in
        Gives (λ v. map result_of v.items) result
        (spec.results_of (I.answers inner.now) scope.now input (P.meaning place.now) (trees.result_of column.now)) }
{
    match column {
        written::ResultColumn::All => {
            let columns = scope.starred(alloc)?;
            some(alloc, by, columns, Fault::WrongPlace)
        }
        written::ResultColumn::AllOf(table) => {
            let columns = scope.starred_of(alloc, table.as_str())?;
            some(alloc, by, columns, Fault::UnknownColumn)
        }
        written::ResultColumn::Value(e, name) => {
            let mut columns = Vec::new(alloc);
            columns.push(ResultColumn {
                term: term(alloc, inner, place, e)?,
                name: title(alloc, scope, e, name)?,
            })?;
            Ok(columns)
        }
    }
}

/// The result columns of a SELECT. `by` are the expressions of GROUP BY, where there are groups. The fault is one of `term`, of
/// an expression; `WrongPlace` of `*` without FROM; `UnknownColumn` of `t.*` without such a source; `BareColumn` where a column
/// of either is no expression of GROUP BY; or `NoMemory`. (SELECT, "Generation of the set of result rows")
pub fn result_columns<I: InnerQueries, P: Place>(
    alloc: Global,
    inner: &I,
    place: &P,
    scope: &Scope,
    by: Option<&[Expr]>,
    columns: &[written::ResultColumn],
) -> Result<Vec<ResultColumn>, Fault>
    ensures { let input = inputs.input_of (option_map (λ terms. map term terms.now) by.entry) in
        Gives (λ v. map result_of v.items) result
        (spec.all_results (I.answers inner.now) scope.now input (P.meaning place.now)
        (results_of (map trees.result_of columns.now))) }
{
    let mut results = Vec::new(alloc);
    for column in columns {
        let mut next = columns_of(alloc, inner, place, scope, by, column)?;
        results.append(&mut next)?;
    }
    Ok(results)
}
