//! What holds of the definitions alone, and examples of them.
ghost use Rattle.operators_results.specs.distinct_results.Firsts.{FirstsAreOnce};
ghost use Rattle.operators_results.specs.compound_results.Examples.{JoinedExamples};
ghost use Rattle.logical_plan.specs.answers.Joined.{JoinedIsCombined};
ghost use Rattle.logical_plan.specs.answers.Permitted.{AnswerIsPermitted, ArmsHitsAreHits, TableIsSeen, TableKeysAreSeen};

/// The lists of rows that an answer gives are lists that the query permits: of SELECTs that operators combine, in no order or in that of
/// result columns, and of one SELECT without DISTINCT in any order, over any plans of the rows on which they compute their result
/// columns.
pub fn answer_is_permitted()
    ensures { AnswerIsPermitted }
{}

/// What the SELECTs reach the query can reach.
pub fn arms_hits_are_hits()
    ensures { ArmsHitsAreHits }
{}

/// A plan of one table is one of the rows on which a SELECT of this table without groups and windows computes its result columns.
pub fn table_is_seen()
    ensures rows { TableIsSeen }
    ensures keys { TableKeysAreSeen }
{}

/// The first rows of a list are its rows, each once.
pub fn firsts_are_once()
    ensures { FirstsAreOnce }
{}

/// Two lists of rows, and what each operator makes of them.
pub fn joined_examples()
    ensures { JoinedExamples }
{}

/// As a bag, joined rows are what the operator makes of the bags on its sides.
pub fn joined_is_combined()
    ensures { JoinedIsCombined }
{}
