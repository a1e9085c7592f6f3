//! What a row has in a column that was added after it was written. (ALTER TABLE ADD COLUMN)

use values::Value;

/// What a row that is older than a column has in it. (CREATE TABLE, "The DEFAULT clause")
#[derive(Debug, Drop)]
pub enum Missing {
    Fill(Value),
    /// The value of an expression, which isn't computed.
    Refused,
}
