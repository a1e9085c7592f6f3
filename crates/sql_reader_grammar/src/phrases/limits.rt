//! How much a text may spell. (Limits In SQLite)

/// The most bytes of a text.
pub const MAX_TEXT: usize = 65536;

/// The most columns of a SELECT or a table.
pub const MAX_COLUMNS: usize = 100;
