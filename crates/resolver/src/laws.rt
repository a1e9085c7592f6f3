//! What holds of the definitions alone.
ghost use Rattle.std.specs.Prelude.{◌≡◌, ◌≢◌, List};
ghost use Rattle.values.specs.declared.fault.Fault.{Fault};
ghost use Rattle.values.specs.declared.fault.Fault.TheVariants.{NoMemory};
ghost use Rattle.semantics.specs.Typed.{IsTyped};
ghost use Rattle.semantics_names.specs.Statement.{Named};
ghost use Rattle.schema_tables.specs.ColumnTypes.{column_types};
ghost use Rattle.schema_tables.specs.TableData.{TableData};
ghost use Rattle.sql_reader_syntax.specs.StatementTree.{StatementTree};
ghost use Rattle.resolver.specs.Refusals.{CompoundWidths, InnerWidth, ItemWidths, RepeatedSource, UsingAmbiguous, UsingUnknown};
ghost use Rattle.resolver.specs.Resolved.{IsNoQueryOver, Resolves};

use semantics_names::laws::{names_are_columns, typed_as_meaning};

/// A statement is one query at most, whose result columns have one name each.
pub fn one_query()
    ensures { (tables : List TableData) (tree : StatementTree) (first second : Named)
        → Resolves tables tree first → Resolves tables tree second → first ≡ second }
{}

/// The query of a statement is typed over the types of the catalog's columns.
pub fn resolved_is_typed()
    ensures { (tables : List TableData) (tree : StatementTree) (named : Named)
        → Resolves tables tree named → IsTyped (column_types tables) named.query }
{
    typed_as_meaning();
}

/// A statement that is refused for another reason than want of memory is no query.
pub fn refused_is_unresolved()
    ensures { (tables : List TableData) (tree : StatementTree) (fault : Fault) (named : Named)
        → IsNoQueryOver tables tree fault → fault ≢ NoMemory → ¬ Resolves tables tree named }
{}

/// Numbers of columns are told to differ exactly where they do: those of an item of WITH and the names behind its own, those of
/// SELECTs that are joined, and the one of the query of an IN. A source that is called as one before it is refused so. A name of
/// USING is unknown exactly where a side has no column of it, and ambiguous exactly where it has two.
pub fn refusals_are_told()
    ensures items { ItemWidths }
    ensures compounds { CompoundWidths }
    ensures inner { InnerWidth }
    ensures sources { RepeatedSource }
    ensures unknown { UsingUnknown }
    ensures two { UsingAmbiguous }
{
    names_are_columns();
}
