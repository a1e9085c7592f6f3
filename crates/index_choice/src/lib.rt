//! The ways to read a source of a join: all of it, or a search of its primary key or of an index. It promises
//! that `paths` lists exactly those that the conjuncts of a SELECT serve, each with what it is expected to
//! cost and to give; that `best` is the least of them; that a bound says of a row what its conjunct says, for
//! any value substituted for an overflow; and that a condition of a partial index is true on each row on
//! which a conjunct is that implies it. A choice sees numbers alone: no pages and, once the conjuncts have
//! been looked through, no expressions.
//!
//! The modules, in the order in which data passes them: `comparisons` (the bounds that an expression says),
//! `conditions` (what implies a condition of a partial index), `conjuncts` (what a choice sees of a
//! conjunct), `sources` (rows, pages and keys), `costs`, `choice` (paths, and the best), and `laws`.
#![tactic(auto)]

mod choice;
mod comparisons;
mod conditions;
mod conjuncts;
mod costs;
pub mod laws;
mod sources;

pub use choice::{Path, Search, best, best_path, paths};
pub use comparisons::{ColumnBound, Side, bounds};
pub use conditions::{implies, implying};
pub use conjuncts::{Bound, Conjunct, same_side};
pub use sources::{Key, Source, TreeCounts};
