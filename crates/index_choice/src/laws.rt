//! What holds of every conjunct and of every search.
ghost use Rattle.index_choice.specs.Bounds.{FirstBoundIsBound};
ghost use Rattle.index_choice.specs.ColumnBounds.{BoundSaysConjunct};
ghost use Rattle.index_choice.specs.Conditions.{ImpliedIsTrue, ImplyingAreImplying};
ghost use Rattle.index_choice.specs.Examples.{WorkedCosts};
ghost use Rattle.index_choice.specs.Searches.{NullGivesNone, PathGivesCovered, PathIsFilter, PathServesTests};

use semantics_names::laws::same_is_equal;

/// A bound says of a row what its conjunct says, whatever stands for results out of range.
pub fn bound_says_conjunct()
    ensures { BoundSaysConjunct }
{}

/// The first conjunct that bounds a column on a side has a bound of that column, by a value of known columns alone.
pub fn first_bound_is_bound()
    ensures { FirstBoundIsBound }
{}

/// Where a conjunct is true on a row, so is a condition that it implies.
pub fn implied_is_true()
    ensures { ImpliedIsTrue }
{}

/// A search with the values of its bounds gives exactly the rows that its key covers on which its conjuncts are true, each as
/// often.
pub fn path_gives_covered()
    ensures { PathGivesCovered }
{}

/// It gives exactly the rows on which its conjuncts are true, where these imply that a row is covered.
pub fn path_is_filter()
    ensures { PathIsFilter }
{}

/// Where all conjuncts that are tested imply that a row is covered, testing them on what a search gives keeps exactly the rows
/// on which they are true.
pub fn path_serves_tests()
    ensures { PathServesTests }
{}

/// Where a bound is NULL the conjuncts of a search are true on no row.
pub fn null_gives_none()
    ensures { NullGivesNone }
{}

/// The conjuncts that imply a condition are those of which each does.
pub fn implying_are_implying()
    ensures { ImplyingAreImplying }
{
    same_is_equal();
}

/// The costs of worked searches.
pub fn worked_costs()
    ensures { WorkedCosts }
{}
