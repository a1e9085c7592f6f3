//! The trees of calls and of columns.
ghost use Rattle.sql_reader_grammar.specs.statement_trees.TreeView.{behind_of, expr_of};
ghost use Rattle.std.specs.Prelude.{◌≡◌, map, option_map, string_bytes};
ghost use Rattle.sql_reader_syntax.specs.ExprTree.{ExprTree, trees_of};

use sql_reader_grammar::{CallSuffix, Expr};
use sql_reader_syntax::Function;

pub(crate) fn column(table: Option<String>, name: String) -> Expr
    ensures { expr_of result ≡ ExprTree.Column (option_map (λ table. string_bytes table) table) (string_bytes name) }
{
    Expr::Column(table, name)
}

pub(crate) fn call(function: Function, arguments: Vec<Expr>, behind: CallSuffix) -> Expr
    ensures { expr_of result ≡ ExprTree.Call function (trees_of (map expr_of arguments.items)) (behind_of behind) }
{
    Expr::Call(function, arguments, behind)
}

pub(crate) fn count_rows(behind: CallSuffix) -> Expr
    ensures { expr_of result ≡ ExprTree.CountRows (behind_of behind) }
{
    Expr::CountRows(behind)
}
