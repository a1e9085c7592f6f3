//! Expressions over the values of one row. It promises that `eval` answers exactly the value that an
//! expression means, for any value substituted for an overflow, and `Overflow` exactly where an operation is
//! reached whose result leaves 64 bits; that a typed expression's value has its type or is NULL; that a
//! condition is true exactly where each of its conjuncts is; that each operation, comparison, function and
//! LIKE answers exactly the value that it means; and that a set of values answers as `IN` over its list does.
//!
//! The modules, in the order in which data passes them: `operations` (the operations on values that
//! expressions are made of), `value_sets` (lists of values that are asked whether a value equals one of
//! them), `tree` (expressions), `copies` (copies, with others for columns and answers), `numbers` (expressions
//! of numbers alone), `evaluation` (the value on a row), `conditions` (a condition split at AND), `names` (the
//! columns and answers that are named), and `laws`.
#![tactic(auto)]

mod conditions;
mod copies;
mod evaluation;
pub mod laws;
mod names;
mod numbers;
pub mod operations;
mod tree;
mod value_sets;

pub use conditions::{conjuncts, is_true};
pub use copies::{Leaves, copy, copy_all};
pub use evaluation::eval;
pub use names::{answers, columns};
pub use operations::{Arithmetic, Comparison, Function};
pub use tree::{Arm, Expr};
pub use value_sets::ValueSet;
