//! What is computed of the queries in a query.
ghost use Rattle.std.specs.Prelude.{◌≡◌, []};

use std::alloc::Global;
use values::Value;

/// What is computed of the queries in a query.
#[derive(Drop)]
pub struct InnerRows {
    /// The rows of each source that is no table. (SELECT, "Determination of input data")
    pub kept: Vec<Vec<Vec<Value>>>,
    /// The values of each query inside an expression. (SQL Language Expressions, "The IN and NOT IN Operators", "The EXISTS Operator")
    pub answers: Vec<Vec<Value>>,
}

impl InnerRows {
    /// Before anything is computed.
    pub(crate) fn new(alloc: Global) -> InnerRows
        ensures kept { result.kept.items ≡ [] }
        ensures answers { result.answers.items ≡ [] }
    {
        InnerRows {
            kept: Vec::new(alloc),
            answers: Vec::new(alloc),
        }
    }
}
