//! Statements that are stepped, a row at a time.
use operators_runs::QueryRun;

/// A statement over an engine's tables that is stepped, and where it stands. It owns what is run for it.
pub struct Statement {
    pub(crate) run: QueryRun,
}

// Written, as that of an engine.
impl Drop for Statement {
    fn drop(self) {
        let Statement { run } = self;
        drop(run);
    }
}

/// A statement before its first row.
#[derive(Drop)]
pub struct Started {
    /// The names of its result columns, as they were declared.
    pub names: Vec<String>,
    /// The statement itself.
    pub statement: Statement,
}
