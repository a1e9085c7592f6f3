//! Tests of what plans cost by the public calls of their crates, as tables of rows.
//!
//! Its modules: `paths`, and `orders` over `joined_tables`.
#[cfg(test)]
mod joined_tables;
#[cfg(test)]
mod orders;
#[cfg(test)]
mod paths;
