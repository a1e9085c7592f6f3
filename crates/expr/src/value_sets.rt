//! Lists of values that are asked whether a value equals one of them. It promises that a set is the list that
//! it was made of, and that its answer is that of `IN` over the list, though it looks at few of the values.
//!
//! Its modules, in order: `order` (the positions of values, in the order of the values), `numbers` (the whole
//! numbers among values) and `set`.
mod numbers;
mod order;
mod set;

pub use set::ValueSet;
