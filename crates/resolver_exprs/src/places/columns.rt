//! The place of expressions over the rows of FROM.
ghost use Rattle.std.specs.Prelude.{option_map, string_bytes};
ghost use Rattle.semantics_names.specs.Places.{columns_say};
ghost use Rattle.semantics_names.specs.Scope.{column_of};
ghost use Rattle.resolver_terms.specs.Outcome.{Gives};
ghost use Rattle.expr.specs.View.{term};

use crate::expression_names::Place;
use crate::scopes::Scope;
use expr::Expr as Term;
use sql_reader_grammar::Expr;
use std::alloc::Global;
use values::Fault;

/// Where expressions speak of the columns of FROM: WHERE, ON, GROUP BY and the arguments of aggregates. (SELECT)
#[derive(Clone, Copy)]
pub struct Columns<'a> {
    /// The columns that FROM shows.
    pub scope: &'a Scope,
}

// The term of a column.
pub(crate) fn column(
    alloc: Global,
    scope: &Scope,
    table: &Option<String>,
    name: &String,
) -> Result<Term, Fault>
    ensures { Gives term result (column_of scope.now (option_map (λ t. string_bytes t) table.now) (string_bytes name.now)) }
{
    match table {
        Some(table) => scope.column(alloc, Some(table.as_str()), name.as_str()),
        None => scope.column(alloc, None, name.as_str()),
    }
}

impl<'a> Place for Columns<'a> {
    ghost meaning = { λ place. columns_say place.scope.now };

    fn says(&self, alloc: Global, part: &Expr) -> Result<Option<Term>, Fault> {
        let Expr::Column(table, name) = part else {
            return Ok(None);
        };
        let column = column(alloc, self.scope, table, name)?;
        Ok(Some(column))
    }
}
