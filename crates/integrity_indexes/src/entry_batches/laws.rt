//! What holds of the definitions alone.
ghost use Rattle.std.specs.Prelude.{◌≡◌, All};
ghost use Rattle.values.specs.Row.{Row};
ghost use Rattle.integrity_indexes.specs.entry_batches.Codes.{IsHeld, codes_of};

/// Two rows of values that have one code are the same.
pub fn one_code()
    ensures { (one other : Row) → All IsHeld one → All IsHeld other → codes_of one ≡ codes_of other → one ≡ other }
{}
