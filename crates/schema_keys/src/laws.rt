//! What holds of the definitions alone.
ghost use Rattle.std.specs.Prelude.{◌≡◌, ℕ};
ghost use Rattle.values.specs.Row.{Row};
ghost use Rattle.schema_keys.specs.Rows.{SaysTable};
ghost use Rattle.schema_tables.specs.TableData.{TableData};

/// A row of the schema says at most one table.
pub fn one_table()
    ensures { (pages : ℕ) (row : Row) (first second : TableData) → SaysTable pages row first
        → SaysTable pages row second → first ≡ second }
{}
