//! The columns that a FROM shows. It promises that a name means the one column called so, alone or after its
//! source's, and is refused where none is or two are; that a column has the name that its source declares;
//! and that `*`, `t.*` and USING are exactly those of the definition of name resolution.
//!
//! Its modules, in order: `shown` (one column), `lookup` (the column of a name), `stars` (`*` and `t.*`),
//! `using` (what USING changes) and `scope` (all columns of a FROM).
mod lookup;
mod scope;
mod shown;
mod stars;
mod using;

pub use scope::Scope;
pub use shown::{Shown, bare_term};
pub use stars::ResultColumn;
