//! What holds of the definitions alone.
ghost use Rattle.operators_runs.specs.inner_rows.Over.{KeptAreStored};
ghost use Rattle.operators_runs.specs.inner_rows.WorkExamples.{AskFor, worked_pages};
ghost use Rattle.values.specs.Datum.{Datum};

/// Where tables are stored as is said of them, so are they with lists of rows behind them.
pub fn kept_are_stored()
    ensures { KeptAreStored }
{}

/// How many pages worked queries may ask for, with joins and with queries in them.
pub fn pages_are_worked()
    ensures { (w : Datum) → AskFor w worked_pages }
{}
