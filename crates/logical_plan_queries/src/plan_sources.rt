//! Whether a plan reads sources that exist. It promises to report so exactly where the positions that a plan
//! names are those of tables of the catalog or of lists of rows after them, and its columns are some that
//! these have.
//!
//! Its modules: `named` (what is at a position that is named) and `covered` (a plan).
mod covered;
mod named;

pub use covered::is_over;
