//! What holds of the definitions alone.
ghost use Rattle.windows.specs.Wanted.{ColumnsAreWindowed};

/// The rows that `windowed` makes are the rows that are given, each with the values behind it that stand at its place in the
/// columns of the calls.
pub fn columns_are_windowed()
    ensures { ColumnsAreWindowed }
{}
