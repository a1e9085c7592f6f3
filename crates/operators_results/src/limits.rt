//! LIMIT and OFFSET.
ghost use Rattle.std.specs.Prelude.{◌≡◌, ◌≢◌, ◌∷◌, [], IsFalse, IsTrue, List, Some};
ghost use Rattle.values.specs.Row.{Row};
ghost use Rattle.semantics.specs.Answer.{limited, skipped};
ghost use Rattle.operators_results.specs.Slices.{sliced};

/// How many rows are still passed over, and how many are given behind them. (SELECT, "The LIMIT clause")
#[derive(Clone, Copy, Debug)]
pub struct LimitOffset {
    skip: u64,
    left: Option<u64>,
}

impl LimitOffset {
    /// What LIMIT and OFFSET leave: a negative LIMIT is none, and a negative OFFSET is 0.
    pub fn new(limit: Option<i64>, offset: i64) -> LimitOffset
        ensures { (rows : List Row) → sliced result rows ≡ limited limit (skipped offset rows) }
    {
        let left = match limit {
            Some(limit) if limit >= 0 => Some(limit as u64),
            _ => None,
        };
        let skip = if offset < 0 { 0 } else { offset as u64 };
        LimitOffset { skip, left }
    }

    /// Whether no further row is given, whatever comes.
    pub fn is_done(&self) -> bool
        ensures done { IsTrue result → (rows : List Row) → sliced self.now rows ≡ [] }
        ensures more { IsFalse result → self.now.left ≢ Some 0 }
    {
        self.left == Some(0)
    }

    /// Goes on behind the next row, and tells whether that is given.
    pub fn gives(&mut self) -> bool
        ensures given { IsTrue result → (row : Row) (rows : List Row) → sliced self.old (row ∷ rows) ≡ row ∷ sliced self.new rows }
        ensures passed { IsFalse result → (row : Row) (rows : List Row) → sliced self.old (row ∷ rows) ≡ sliced self.new rows }
    {
        if self.skip > 0 {
            self.skip -= 1;
            return false;
        }
        match self.left {
            None => true,
            Some(0) => false,
            Some(left) => {
                self.left = Some(left - 1);
                true
            }
        }
    }
}
