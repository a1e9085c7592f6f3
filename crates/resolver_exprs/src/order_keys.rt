//! What ORDER BY puts the rows of a query in order by. It promises that its terms are exactly those of the
//! definition of name resolution, and that a fault is given exactly where the definition has it.
//!
//! Its modules, in order: `lookup` (the result column of a name) and `terms`.
mod lookup;
mod terms;

pub use terms::{keys, number_alone};
