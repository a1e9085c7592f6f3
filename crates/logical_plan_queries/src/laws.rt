//! What holds of the definitions alone.
ghost use Rattle.logical_plan_queries.specs.Laws.{TypedIsServed};

/// A typed query is served, of one SELECT or of several that are joined, where each stands on tables that are joined, or on none.
pub fn typed_is_served()
    ensures { TypedIsServed }
{}
