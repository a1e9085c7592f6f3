//! What holds of the definitions alone.
ghost use Rattle.logical_plan_terms.specs.window_plans.Laws.{WindowedColumnsAreHit, WindowedHasRows, WindowedIsHit, WindowedSay};

/// The plan has the rows that result columns are computed on, and expressions over it say of them what their terms say.
pub fn windowed_has_rows()
    ensures rows { WindowedHasRows }
    ensures say { WindowedSay }
{}

/// What the plan reaches, and what expressions on its rows reach, the SELECT can reach.
pub fn windowed_is_hit()
    ensures plan { WindowedIsHit }
    ensures columns { WindowedColumnsAreHit }
{}
