//! The parts of the expressions of a SELECT's clauses.
ghost use Rattle.std.specs.Prelude.{◌≡◌, ◌++◌, IfOk, OnOk, map, option_map};
ghost use Rattle.std.specs.List.{flat_map};
ghost use Rattle.resolver_exprs.specs.expression_parts.Found.{found_in};
ghost use Rattle.sql_reader_grammar.specs.Reading.{definitions_of, results_of, terms_of};
ghost use Rattle.semantics_names.specs.Parts as spec;
ghost use Rattle.sql_reader_syntax.specs.ExprView.{maybe_of};
ghost use Rattle.sql_reader_grammar.specs.statement_trees.TreeView.{core_of, definition_of, expr_of, joined_of, maybe_from, on_of, result_of, sources_of, term_of};
ghost use Rattle.sql_reader_syntax.specs.ExprTree.{trees_of};

use crate::expression_parts::expressions::{all_parts, parts, terms_parts, window_parts};
use sql_reader_grammar::{
    Expr, JoinCondition, Joined, NamedWindow, OrderingTerm, ResultColumn, SelectCore, Sources,
};
use std::alloc::{AllocError, Global};

fn result_parts<'a>(column: &'a ResultColumn, found: &mut Vec<&'a Expr>) -> Result<(), AllocError>
    ensures { OnOk result (found_in found.new ≡ found_in found.old ++ spec.result_parts (result_of column.now)) }
{
    match column {
        ResultColumn::Value(e, _) => parts(e, found),
        ResultColumn::All | ResultColumn::AllOf(_) => Ok(()),
    }
}

fn results_parts<'a>(
    columns: &'a [ResultColumn],
    found: &mut Vec<&'a Expr>,
) -> Result<(), AllocError>
    ensures { OnOk result (found_in found.new ≡ found_in found.old ++ spec.results_parts (results_of (map result_of columns.now))) }
{
    for column in columns {
        result_parts(column, found)?;
    }
    Ok(())
}

fn condition_parts<'a>(
    condition: &'a Option<Expr>,
    found: &mut Vec<&'a Expr>,
) -> Result<(), AllocError>
    ensures { OnOk result (found_in found.new
        ≡ found_in found.old ++ spec.maybe_parts (maybe_of (option_map expr_of condition.now))) }
{
    match condition {
        None => Ok(()),
        Some(e) => parts(e, found),
    }
}

fn definitions_parts<'a>(
    windows: &'a [NamedWindow],
    found: &mut Vec<&'a Expr>,
) -> Result<(), AllocError>
    ensures { OnOk result (found_in found.new
        ≡ found_in found.old ++ spec.definitions_parts (definitions_of (map definition_of windows.now))) }
{
    for definition in windows {
        window_parts(&definition.window, found)?;
    }
    Ok(())
}

fn on_parts<'a>(condition: &'a JoinCondition, found: &mut Vec<&'a Expr>) -> Result<(), AllocError>
    ensures { OnOk result (found_in found.new ≡ found_in found.old ++ spec.on_parts (on_of condition.now)) }
{
    match condition {
        JoinCondition::On(e) => parts(e, found),
        JoinCondition::Always | JoinCondition::Using(_) => Ok(()),
    }
}

fn joined_parts<'a>(others: &'a [Joined], found: &mut Vec<&'a Expr>) -> Result<(), AllocError>
    ensures { OnOk result (found_in found.new
        ≡ found_in found.old ++ flat_map (λ j. spec.on_parts j.1.1) (map joined_of others.now)) }
{
    for next in others {
        on_parts(&next.condition, found)?;
    }
    Ok(())
}

fn from_parts<'a>(from: &'a Option<Sources>, found: &mut Vec<&'a Expr>) -> Result<(), AllocError>
    ensures { OnOk result (found_in found.new
        ≡ found_in found.old ++ spec.from_parts (maybe_from (option_map sources_of from.now))) }
{
    match from {
        None => Ok(()),
        Some(from) => joined_parts(from.others.as_slice(), found),
    }
}

/// The parts of result columns, FROM, WHERE and GROUP BY.
fn first_parts<'a>(
    columns: &'a [ResultColumn],
    from: &'a Option<Sources>,
    condition: &'a Option<Expr>,
    groups: &'a [Expr],
    found: &mut Vec<&'a Expr>,
) -> Result<(), AllocError>
    ensures { OnOk result (found_in found.new
        ≡ found_in found.old ++ (spec.results_parts (results_of (map result_of columns.now))
        ++ spec.from_parts (maybe_from (option_map sources_of from.now))
        ++ spec.maybe_parts (maybe_of (option_map expr_of condition.now))
        ++ spec.all_parts (trees_of (map expr_of groups.now)))) }
{
    results_parts(columns, found)?;
    from_parts(from, found)?;
    condition_parts(condition, found)?;
    all_parts(groups, found)
}

/// The parts of HAVING, WINDOW and ORDER BY.
fn last_parts<'a>(
    having: &'a Option<Expr>,
    windows: &'a [NamedWindow],
    order: &'a [OrderingTerm],
    found: &mut Vec<&'a Expr>,
) -> Result<(), AllocError>
    ensures { OnOk result (found_in found.new
        ≡ found_in found.old ++ (spec.maybe_parts (maybe_of (option_map expr_of having.now))
        ++ spec.definitions_parts (definitions_of (map definition_of windows.now))
        ++ spec.terms_parts (terms_of (map term_of order.now)))) }
{
    condition_parts(having, found)?;
    definitions_parts(windows, found)?;
    terms_parts(order, found)
}

/// The parts of all expressions of a SELECT, and of its ORDER BY. (SELECT)
pub fn core_parts<'a>(
    alloc: Global,
    core: &'a SelectCore,
    order: &'a [OrderingTerm],
) -> Result<Vec<&'a Expr>, AllocError>
    ensures { IfOk result (λ found. found_in found
        ≡ spec.core_parts (core_of core.now) (terms_of (map term_of order.now))) }
{
    let mut found = Vec::new(alloc);
    first_parts(
        core.columns.as_slice(),
        &core.sources,
        &core.condition,
        core.groups.as_slice(),
        &mut found,
    )?;
    last_parts(&core.having, core.windows.as_slice(), order, &mut found)?;
    Ok(found)
}

/// The parts of the expressions of a SELECT, and of its ORDER BY, that are computed over its groups, where it has groups: those
/// of its result columns, HAVING, WINDOW and ORDER BY. (SELECT, "Generation of the set of result rows")
pub fn parts_behind_groups<'a>(
    alloc: Global,
    core: &'a SelectCore,
    order: &'a [OrderingTerm],
) -> Result<Vec<&'a Expr>, AllocError>
    ensures { IfOk result (λ found. found_in found
        ≡ spec.parts_behind_groups (core_of core.now) (terms_of (map term_of order.now))) }
{
    let mut found = Vec::new(alloc);
    results_parts(core.columns.as_slice(), &mut found)?;
    last_parts(&core.having, core.windows.as_slice(), order, &mut found)?;
    Ok(found)
}
