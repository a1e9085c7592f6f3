//! What holds of every search.
ghost use Rattle.btree_cursor.specs.key_ranges.Examples.{WorkedRanges};
ghost use Rattle.btree_cursor.specs.key_ranges.Runs.{CutsAreOneRun, RangeIsOneRun};
ghost use Rattle.btree_cursor.specs.key_ranges.Laws.{CutsAreRange, NullMeetsNothing, SearchIsFilter};

/// Where no bound is NULL, the entries between the two cuts of a range are exactly those that meet it, whether columns
/// ascend or descend, and whatever NULLs they hold.
pub fn cuts_are_range()
    ensures { CutsAreRange }
{}

/// Where a bound is NULL, no entry meets the range.
pub fn null_meets_nothing()
    ensures { NullMeetsNothing }
{}

/// A search gives exactly the rows on which its conjuncts are true, each as often.
pub fn search_is_filter()
    ensures { SearchIsFilter }
{}

/// In an ascending tree the entries between two cuts are those that a cursor meets from the first that isn't before one
/// up to the first that isn't before the other.
pub fn cuts_are_one_run()
    ensures { CutsAreOneRun }
{}

/// So in an ascending tree the entries that meet a range without a NULL bound are those from its start to its end.
pub fn range_is_one_run()
    ensures { RangeIsOneRun }
{}

/// `qty < 40` over an index whose column ascends, and over one whose column descends.
pub fn worked_ranges()
    ensures { WorkedRanges }
{}
