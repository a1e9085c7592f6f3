//! The query of a statement.
ghost use Rattle.std.specs.Prelude.{IfErr, IfOk, map};
ghost use Rattle.semantics.specs.Typed.{IsTyped};
ghost use Rattle.semantics_names.specs.Typed as naming;
ghost use Rattle.resolver_terms.specs.Outcome.{Gives};
ghost use Rattle.schema_tables.specs.ColumnTypes.{column_types};
ghost use Rattle.resolver_bodies.specs.NamedView.{named_data, query_data};
ghost use Rattle.sql_reader_grammar.specs.statement_trees.StatementView.{statement_of};
ghost use Rattle.resolver.specs.Resolved.{IsNoQueryOver, Resolves, tables_of};

use crate::known::{column_types, known_tables};
use crate::query_types::check_types;
use crate::statement_names::named_statement;
use resolver_bodies::NamedStatement;
use schema_tables::Table;
use semantics_names::laws::typed_as_meaning;
use sql_reader_grammar::Statement;
use std::alloc::Global;
use values::{Fault, Ty};

// A statement by its names, where it is typed. The fault is one of `check_types`.
fn typed(alloc: Global, tables: &[Vec<Ty>], named: NamedStatement) -> Result<NamedStatement, Fault>
    ensures { Gives named_data result (naming.with_types (map (λ types. types.items) tables.now) (named_data named)) }
{
    let query = &named.query;
    check_types(
        alloc,
        tables,
        named.beside.as_slice(),
        &query.body,
        query.order.as_slice(),
    )?;
    Ok(named)
}

// The query of a statement over the tables of a catalog. The fault is one of its names or of its types, or `NoMemory`.
fn typed_statement(
    alloc: Global,
    tables: &[Table],
    statement: &Statement,
) -> Result<NamedStatement, Fault>
    ensures { Gives named_data result (naming.typed_query (tables_of tables.now) (statement_of statement.now)) }
{
    let known = known_tables(alloc, tables)?;
    let named = named_statement(alloc, known, statement)?;
    let types = column_types(alloc, tables)?;
    typed(alloc, types.as_slice(), named)
}

/// The query that a statement is over the tables of a catalog. The fault is one of the statement's names; one of its types; or
/// `NoMemory`. (SELECT)
pub fn resolve(
    alloc: Global,
    tables: &[Table],
    statement: &Statement,
) -> Result<NamedStatement, Fault>
    ensures means { IfOk result (λ named. Resolves tables.now (statement_of statement.now) (named_data named)) }
    ensures typed { IfOk result (λ named. IsTyped (column_types tables.now) (query_data named.query)) }
    ensures refused { IfErr result (IsNoQueryOver tables.now (statement_of statement.now)) }
{
    typed_as_meaning();
    typed_statement(alloc, tables, statement)
}
