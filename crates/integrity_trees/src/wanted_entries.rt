//! The entries that an index must have for the rows of its table. It promises that entries in the order of an
//! index, as many as are wanted and each of them wanted, are the wanted ones as a bag, and that neighbours
//! show whether two entries agree in its columns and how many different first values there are.
//!
//! Its one module is `laws`.
pub mod laws;
