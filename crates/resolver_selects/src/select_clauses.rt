//! Clauses of a SELECT after its FROM. It promises that WHERE, HAVING, GROUP BY and WINDOW are exactly what
//! the definition of name resolution makes of them, and that a fault is given exactly where the definition
//! has it.
//!
//! Its modules: `grouping` (WHERE, GROUP BY and HAVING) and `definitions` (WINDOW).
mod definitions;
mod grouping;

pub use definitions::{are_distinct, defined_windows};
pub use grouping::{condition, keys};
