//! The trees of SQL texts, as written: readers make them, and what gives them a meaning takes them.
//! Parentheses and quotes are gone. It promises which function a name in a call means, and how many arguments
//! each takes; of the trees themselves it promises nothing.
//!
//! The modules: `expr` (what expressions are made of), `functions` (which they call), `query` (what combines
//! queries, sorts rows and names result columns).
#![tactic(auto)]

mod expr;
mod functions;
mod query;

pub use expr::{BinaryOperator, Function, PostfixOperator, PrefixOperator};
pub use query::{CompoundOperator, Direction, Edge, Exclusion, Frame, FrameUnit, Join, ResultName};
