//! What holds of every pattern and text.
ghost use Rattle.expr.specs.operations.Like.{TestIsRelation};

/// The test by which LIKE is computed holds exactly where its relation does.
pub fn like_is_relation()
    ensures { TestIsRelation }
{}
