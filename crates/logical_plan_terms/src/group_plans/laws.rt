//! What holds of the definitions alone.
ghost use Rattle.logical_plan_terms.specs.group_plans.Laws.{GroupedColumnsAreHit, GroupedHasRows, GroupedIsHit, GroupedSay};

/// The plan has the rows of groups that HAVING keeps, and expressions over it say of them what their terms say.
pub fn grouped_has_rows()
    ensures rows { GroupedHasRows }
    ensures say { GroupedSay }
{}

/// What the plan reaches, and what expressions on its rows reach, the SELECT can reach.
pub fn grouped_is_hit()
    ensures plan { GroupedIsHit }
    ensures columns { GroupedColumnsAreHit }
{}
