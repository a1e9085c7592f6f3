//! What holds of the definitions alone.
ghost use Rattle.windows_groups.specs.row_groups.Gathered.{GatheredAreGroups, GatheredLeaveAsGroups};

/// Gathered rows are the bag of rows that GROUP BY gives, and where an aggregate of one of them leaves 64 bits, one of its
/// groups does.
pub fn gathered_are_groups()
    ensures rows { GatheredAreGroups }
    ensures leaves { GatheredLeaveAsGroups }
{}
