//! How many rows LIMIT and OFFSET look at.
ghost use Rattle.std.specs.Prelude.{◌≡◌, List};
ghost use Rattle.values.specs.Row.{Row};
ghost use Rattle.semantics.specs.Answer.{limited, skipped};
ghost use Rattle.windows_groups.specs.Firsts.{at_most};

/// How many rows in order LIMIT and OFFSET look at, if not all. (SELECT, "The LIMIT clause")
pub fn rows_looked_at(limit: Option<i64>, offset: i64) -> Option<usize>
    ensures { (rows : List Row) → limited limit (skipped offset (at_most result rows)) ≡ limited limit (skipped offset rows) }
{
    match limit {
        Some(limit) if limit >= 0 => Some(limit as usize + offset.max(0) as usize),
        _ => None,
    }
}
