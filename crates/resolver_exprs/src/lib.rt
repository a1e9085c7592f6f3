//! The names in expressions, resolved to the positions of columns. It promises that the term of an expression
//! at each place of a SELECT, the columns that a FROM shows and that its names mean, the parts and aggregates
//! of expressions, each once, and the terms of ORDER BY are exactly those of the definition of name
//! resolution, and that a fault is given exactly where the definition has it.
//!
//! The modules, in the order in which data passes them: `expression_nodes` (the terms of operators and
//! functions, from those of their operands), `expression_names` (the term of an expression at a place of a
//! SELECT), `scopes` (the columns that a FROM shows), `expression_parts` (the parts of expressions, in the
//! order in which they are written), `places` (the places of a SELECT at which an expression may be) and
//! `order_keys` (what ORDER BY puts the rows of a query in order by).
#![tactic(auto)]

mod expression_names;
mod expression_nodes;
mod expression_parts;
mod order_keys;
mod places;
mod scopes;

pub use expression_names::{InnerQueries, Place, all_terms, term};
pub use expression_nodes::binary;
pub use expression_parts::{core_parts, parts_behind_groups};
pub use order_keys::{keys, number_alone};
pub use places::{Columns, Groups, aggregate_call, count_rows, first_aggregates, term_place};
pub use scopes::{ResultColumn, Scope, Shown, bare_term};
