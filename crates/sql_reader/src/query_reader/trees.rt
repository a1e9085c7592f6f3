//! The trees of SELECTs and queries.
ghost use Rattle.sql_reader_grammar.specs.statement_trees.TreeView.{arranged_of, compounds_of, core_of, definition_of, expr_of, query_of, result_of, window_of};
ghost use Rattle.std.specs.Prelude.{◌≡◌, map, string_bytes};
ghost use Rattle.sql_reader.specs.query_reader.Views.{columns_of, definitions_of_vec};
ghost use Rattle.sql_reader.specs.source_reader.Views.{from_of};
ghost use Rattle.sql_reader_syntax.specs.ExprTree.{CoreTree, QueryTree, ResultTree};
ghost use Rattle.sql_reader_syntax.specs.NameView.{name_of};
ghost use Rattle.sql_reader_exprs.specs.window_reader.Views.{present_of, some_of};

use crate::query_reader::cores::Parts;
use sql_reader_grammar::{CompoundArm, Expr, NamedWindow, Query, ResultColumn, SelectCore, Window};
use sql_reader_syntax::{CompoundOperator, ResultName};

pub(crate) fn all() -> ResultColumn
    ensures { result_of result ≡ ResultTree.All }
{
    ResultColumn::All
}

pub(crate) fn all_of(table: String) -> ResultColumn
    ensures { result_of result ≡ ResultTree.AllOf (string_bytes table) }
{
    ResultColumn::AllOf(table)
}

pub(crate) fn value(value: Expr, name: ResultName) -> ResultColumn
    ensures { result_of result ≡ ResultTree.Value (expr_of value) (name_of name) }
{
    ResultColumn::Value(value, name)
}

pub(crate) fn defined(name: String, window: Window) -> NamedWindow
    ensures { definition_of result ≡ (string_bytes name, window_of window) }
{
    NamedWindow { name, window }
}

pub(crate) fn selected(distinct: bool, parts: Parts) -> SelectCore
    ensures { core_of result ≡ CoreTree.Select distinct (columns_of parts.columns) (from_of parts.sources)
        (present_of parts.condition) (some_of parts.groups) (present_of parts.having) (definitions_of_vec parts.windows) }
{
    let Parts {
        columns,
        sources,
        condition,
        groups,
        having,
        windows,
    } = parts;
    SelectCore {
        distinct,
        columns,
        sources,
        condition,
        groups,
        having,
        windows,
    }
}

pub(crate) fn arranged(operator: CompoundOperator, core: SelectCore) -> CompoundArm
    ensures { arranged_of result ≡ (operator, core_of core) }
{
    CompoundArm { operator, core }
}

pub(crate) fn all_arranged(first: SelectCore, others: Vec<CompoundArm>) -> Query
    ensures { query_of result ≡ compounds_of (QueryTree.Core (core_of first)) (map arranged_of others.items) }
{
    Query { first, others }
}
