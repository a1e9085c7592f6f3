//! The types of expressions, and whether two expressions are one tree. It promises that `type_of` answers the
//! type that an expression's values have over columns and answers of given types, exactly where there is one; an
//! expression that can only be NULL has the type `Null`. The types of other trees are joined by the same
//! rules. Two expressions are reported to differ exactly where their trees do, where a list of literals and a
//! set of these values in the same order are one.
//!
//! The modules, in the order in which data passes them: `same_trees` (whether two expressions are one tree),
//! `joining` (types that have to be one) and `typing` (the type of an expression).
#![tactic(auto)]

mod joining;
mod same_trees;
mod typing;

pub use joining::{behind, giving, one_of, one_type, type_of_call, wanted};
pub use same_trees::{same_tree, same_tree_lists};
pub use typing::{RowTypes, type_of};
