//! The entries of an index, each compared with the one before it, as those that agree in their first values
//! are next to one another. Of a checked index it promises how many different values its first columns have,
//! for each number of columns, and whether two entries agree in all of them, none of which is NULL.
//!
//! Its modules, in order: `last` (the record of the entry before), `agreement` (of two entries), `counting`
//! (what is counted of entries), `reading` (all entries of an index) and `laws`.
mod agreement;
mod counting;
mod last;
pub mod laws;
mod reading;

pub use counting::Prefixes;
pub use reading::read_prefixes;
