//! What holds of the definitions alone.
ghost use Rattle.windows.specs.frames.Slices.{RowsAreSlices, ValuesAreSlices};

/// The rows at the places of a frame are the three slices of the sequence, and so are the values of an expression on them.
pub fn frames_are_slices()
    ensures rows { RowsAreSlices }
    ensures values { ValuesAreSlices }
{}
