//! What holds of the definitions alone, and examples of them.
ghost use Rattle.std.specs.Prelude.{◌≡◌, ◌≢◌, List};
ghost use Rattle.values.specs.declared.fault.Fault.{Fault};
ghost use Rattle.values.specs.declared.fault.Fault.TheVariants.{NoMemory};
ghost use Rattle.semantics.specs.Typed.{IsTyped};
ghost use Rattle.sql_reader_syntax.specs.StatementTree.{StatementTree};
ghost use Rattle.semantics_names.specs.Laws.{AmbiguousIsTwo, BareIsBeside, ColumnsAreScalar, NameIsColumn, NameIsSource, UnknownIsNone, UnknownSourceIsNone};
ghost use Rattle.semantics_names.specs.Laws.{DistinctIsSaid, MismatchIsUntyped, SameIsEqual, SourcesAreDistinct, TakenIsWithin, TypedIsTaken};
ghost use Rattle.semantics_names.specs.RefusedExamples.{RefusedFrames, RefusedNames, RefusedPlaces, RefusedTypes};
ghost use Rattle.semantics_names.specs.Statement.{Named};
ghost use Rattle.semantics_names.specs.TakenExamples.{TakenStatements};
ghost use Rattle.semantics_names.specs.Typed.{IsNoQuery, Table, Types, column_types};

/// Statements over two tables that are refused, each by its fault.
pub fn refused_statements()
    ensures names { RefusedNames }
    ensures types { RefusedTypes }
    ensures places { RefusedPlaces }
    ensures frames { RefusedFrames }
{}

/// Statements over two tables, and the queries that they are.
pub fn taken_statements()
    ensures { TakenStatements }
{}

/// A statement is one query at most.
pub fn one_query()
    ensures { (tables : List Table) (tree : StatementTree) (first second : Named)
        → Types tables tree first → Types tables tree second → first ≡ second }
{}

/// A statement that is refused for another reason than want of memory is no query.
pub fn refused_is_no_query()
    ensures { (tables : List Table) (tree : StatementTree) (fault : Fault) (query : Named)
        → IsNoQuery tables tree fault → fault ≢ NoMemory → ¬ Types tables tree query }
{}

/// The query of a statement is typed as the meaning of queries says, over the types of the tables' columns.
pub fn typed_as_meaning()
    ensures { (tables : List Table) (tree : StatementTree) (query : Named)
        → Types tables tree query → IsTyped (column_types tables) query.query }
{}

/// A statement is a query exactly where its names make it one that is typed, and all else is that is written in it.
pub fn typed_is_taken()
    ensures { TypedIsTaken }
{}

/// A column's name is the one column that is called so; it is unknown where none is, and ambiguous where two are.
pub fn names_are_columns()
    ensures one { NameIsColumn }
    ensures none { UnknownIsNone }
    ensures two { AmbiguousIsTwo }
{}

/// A source's name is the first item of WITH, or else the table, that is named so; it is unknown where none is.
pub fn names_are_sources()
    ensures first { NameIsSource }
    ensures none { UnknownSourceIsNone }
{}

/// Types don't agree in a term exactly where it has none.
pub fn mismatch_is_untyped()
    ensures { MismatchIsUntyped }
{}

/// Terms, aggregates, windowed functions and inner queries are told to be the same exactly where they are equal.
pub fn same_is_equal()
    ensures { SameIsEqual }
{}

/// A query has a name for each of its columns, and is within the limits of columns and of sources.
pub fn taken_is_within()
    ensures { TakenIsWithin }
{}

/// No two items of WITH, columns of an item, windows of a SELECT or sources of a FROM have one name.
pub fn names_are_distinct()
    ensures names { DistinctIsSaid }
    ensures sources { SourcesAreDistinct }
{}

/// Behind groups a column is bare exactly where no expression of GROUP BY is it; and where expressions speak of the columns
/// of FROM, neither an aggregate nor a window function stands in them.
pub fn places_are_kept()
    ensures bare { BareIsBeside }
    ensures scalar { ColumnsAreScalar }
{}
