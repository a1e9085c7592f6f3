//! What holds of the definitions alone.
ghost use Rattle.semantics_refusals.specs.Alike.{AlikeIsOfGroupBy};
ghost use Rattle.semantics_refusals.specs.BadFrames.{BadFrameIsRefused};
ghost use Rattle.semantics_refusals.specs.BareColumns.{BareColumnIsRefused};
ghost use Rattle.semantics_refusals.specs.Examples.{BareColumnsAreWritten, NoColumnIsBare, NothingIsWritten, ReasonsAreWritten};
ghost use Rattle.semantics_refusals.specs.Limits.{BeyondLimitIsRefused};
ghost use Rattle.semantics_refusals.specs.Mismatches.{MistypedIsMismatch, MistypedIsRefused};
ghost use Rattle.semantics_refusals.specs.Reasons.{RefusalsHaveReasons};
ghost use Rattle.semantics_refusals.specs.Refusals.{RefusalsAreNumbered};
ghost use Rattle.semantics_refusals.specs.RepeatedNames.{RepeatedIsRefused};
ghost use Rattle.semantics_refusals.specs.Spelt.{SpeltAmbiguousColumnIsRefused, SpeltHavingHasGroups, SpeltUnknownColumnIsRefused};
ghost use Rattle.semantics_refusals.specs.TypeExamples.{ClashesAreFound, OwnTypesAreLeast, PlacesMisfit};
ghost use Rattle.semantics_refusals.specs.UnevenColumns.{UnevenIsRefused};
ghost use Rattle.semantics_refusals.specs.UnknownColumns.{AmbiguousColumnIsRefused, UnknownColumnIsRefused};
ghost use Rattle.semantics_refusals.specs.UnknownSources.{UnknownSourceIsRefused};
ghost use Rattle.semantics_refusals.specs.WrongPlaces.{WrongPlaceIsRefused};

use semantics_names::laws::{
    names_are_columns, names_are_distinct, places_are_kept, refused_statements, same_is_equal,
    typed_is_taken,
};

/// A statement that is no query is refused by a fault of names and types, or for want of memory.
pub fn refusals_are_numbered()
    ensures { RefusalsAreNumbered }
{}

/// Where a statement is refused as one with an unknown source, an unknown or an ambiguous column, numbers of columns that differ,
/// a name that stands twice, or more columns, levels or sources than there may be, this is written somewhere in it; where it is
/// refused because types don't agree, some operator in it has no type over operands that each have one, an expression is of another
/// type than its place wants, or columns that a compound joins are of different types; where it is because of a frame, OVER names no
/// window there, or the frame of a call can't be; where it is because of a wrong place, a call, a number or `*` is where it may not
/// be; and where it is because of a bare column, in a SELECT with groups one is outside aggregates and expressions of GROUP BY.
pub fn refusals_have_reasons()
    ensures { RefusalsHaveReasons }
{
    names_are_columns();
    names_are_distinct();
    places_are_kept();
    same_is_equal();
}

/// A statement of which one of these holds is no query; where types don't agree, it is refused so, unless a window's frame is none.
pub fn reasons_refuse()
    ensures sources { UnknownSourceIsRefused }
    ensures columns { UnknownColumnIsRefused }
    ensures ambiguous { AmbiguousColumnIsRefused }
    ensures uneven { UnevenIsRefused }
    ensures repeated { RepeatedIsRefused }
    ensures limit { BeyondLimitIsRefused }
    ensures frame { BadFrameIsRefused }
    ensures place { WrongPlaceIsRefused }
    ensures bare { BareColumnIsRefused }
    ensures mistyped { MistypedIsRefused }
    ensures mismatch { MistypedIsMismatch }
{
    names_are_columns();
    names_are_distinct();
    places_are_kept();
    same_is_equal();
    typed_is_taken();
}

/// An expression that is written like one of GROUP BY is one of it: the operators are the same, and the names stand for the same
/// columns.
pub fn alike_expressions_are_grouped()
    ensures { AlikeIsOfGroupBy }
{
    names_are_columns();
}

/// In a statement that tokens spell HAVING stands behind GROUP BY alone, however deep, so that one with an unknown column or an
/// ambiguous name is no query.
pub fn spelt_statements_are_refused()
    ensures having { SpeltHavingHasGroups }
    ensures columns { SpeltUnknownColumnIsRefused }
    ensures ambiguous { SpeltAmbiguousColumnIsRefused }
{
    names_are_columns();
}

/// Statements over two tables in which it is written, and such in which nothing of it is; in some a column is bare, and in some none.
pub fn reasons_are_written()
    ensures reasons { ReasonsAreWritten }
    ensures nothing { NothingIsWritten }
    ensures bare { BareColumnsAreWritten }
    ensures unbare { NoColumnIsBare }
{
    names_are_columns();
    names_are_distinct();
    places_are_kept();
    refused_statements();
    same_is_equal();
    typed_is_taken();
}

/// Terms that clash, places where they misfit, and types that a query has of its own; and such that don't.
pub fn types_are_worked()
    ensures clashes { ClashesAreFound }
    ensures places { PlacesMisfit }
    ensures own { OwnTypesAreLeast }
{}
