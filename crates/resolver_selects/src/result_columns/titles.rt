//! The names of result columns.
ghost use Rattle.std.specs.Prelude.{◌≡◌, IfOk, string_bytes};
ghost use Rattle.semantics_names.specs.Statement as spec;
ghost use Rattle.sql_reader_grammar.specs.statement_trees.TreeView.{expr_of};
ghost use Rattle.sql_reader_syntax.specs.NameView.{name_of};

use resolver_exprs::Scope;
use sql_reader_grammar::Expr;
use sql_reader_syntax::ResultName;
use std::alloc::{AllocError, Global};

/// The name of a result column: an alias; of a column alone its name, as its source declares it; else the source text.
/// (SELECT, "Generation of the set of result rows")
pub(crate) fn title(
    alloc: Global,
    scope: &Scope,
    e: &Expr,
    name: &ResultName,
) -> Result<String, AllocError>
    ensures { IfOk result (λ s. string_bytes s ≡ spec.result_name scope.now (expr_of e.now) (name_of name.now)) }
{
    match name {
        ResultName::Alias(alias) => String::from_str(alloc, alias.as_str()),
        ResultName::SourceText(text) => match e {
            Expr::Column(Some(table), name) => {
                scope.declared_name(alloc, Some(table.as_str()), name.as_str())
            }
            Expr::Column(None, name) => scope.declared_name(alloc, None, name.as_str()),
            _ => String::from_str(alloc, text.as_str()),
        },
    }
}
