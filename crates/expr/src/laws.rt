//! What holds of every expression and row.
ghost use Rattle.expr.specs.Columns.{DependsOnColumns};
ghost use Rattle.expr.specs.Laws.{ConjunctsAreLeaves, StandsForAll, IsTotal, KeepsConjuncts, AddsNoOverflow};
ghost use Rattle.expr.specs.Filled.{AnswersAreBags, FilledHasType, FilledIsAnswered, FillsConjuncts, PlacedIsAnswered};
ghost use Rattle.expr.specs.Reaches.{ReachedIsNone};
ghost use Rattle.expr.specs.TermType.{TypesAreFound};
ghost use Rattle.expr.specs.Types.{ConjunctsAreTyped, EvalHasType, TypesOfExamples, ValuesHaveTypes};

/// A value with nothing out of range is the value, whatever stands for results out of range.
pub fn stands_for_all()
    ensures { StandsForAll }
{}

/// Where something stands for results out of range there always is a value.
pub fn is_total()
    ensures { IsTotal }
{}

/// A condition is true exactly where each of its conjuncts is.
pub fn keeps_conjuncts()
    ensures { KeepsConjuncts }
{}

/// Where a condition reaches an operation out of range, some conjunct does.
pub fn adds_no_overflow()
    ensures { AddsNoOverflow }
{}

/// Whatever stands for results out of range, one is reached exactly where there is no value.
pub fn reached_is_none()
    ensures { ReachedIsNone }
{}

/// No conjunct is an AND or a BETWEEN.
pub fn conjuncts_are_leaves()
    ensures { ConjunctsAreLeaves }
{}

/// Rows that agree at the columns that an expression names give one value, and overflow together.
pub fn depends_on_columns()
    ensures { DependsOnColumns }
{}

/// The value of a typed expression has its type or is NULL, on a row whose values have the types of their columns or
/// are NULL, where NULL or a whole number stands for results out of range.
pub fn values_have_types()
    ensures run { ValuesHaveTypes }
    ensures value { EvalHasType }
{}

/// Each conjunct of a condition that is typed is typed.
pub fn conjuncts_are_typed()
    ensures { ConjunctsAreTyped }
{}

/// The types of three expressions: a CASE that is a text, a sum of a number and a text that is of no type, and a sum over
/// a column that is NULL alone.
pub fn types_of_examples()
    ensures { TypesOfExamples }
{}

/// An expression has the types that its computed type may stand for, and no others.
pub fn types_are_found()
    ensures { TypesAreFound }
{}

/// An inner query's values take its place conjunct by conjunct, their order makes no difference, and what was typed over
/// the types of the answers stays so.
pub fn answers_are_filled_in()
    ensures conjuncts { FillsConjuncts }
    ensures bags { AnswersAreBags }
    ensures types { FilledHasType }
    ensures none { FilledIsAnswered }
{}

/// An expression over the columns that are read names the answer of no inner query.
pub fn placed_is_answered()
    ensures { PlacedIsAnswered }
{}
