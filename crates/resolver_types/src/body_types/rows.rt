//! The types of the row that the terms of a SELECT are computed on, and of the answers that they name.
ghost use Rattle.std.specs.Prelude.{◌≡◌};

use expr_types::RowTypes;
use values::Ty;

/// The types of a row, and of the answers of inner queries that terms over it name.
#[derive(Drop)]
pub struct Row {
    pub columns: Vec<Ty>,
    pub answers: Vec<Ty>,
}

impl Row {
    /// The same types, borrowed.
    pub fn types(&self) -> RowTypes<'_>
        ensures columns { result.columns.now ≡ self.now.columns.items }
        ensures answers { result.answers.now ≡ self.now.answers.items }
    {
        RowTypes {
            columns: self.columns.as_slice(),
            answers: self.answers.as_slice(),
        }
    }
}
