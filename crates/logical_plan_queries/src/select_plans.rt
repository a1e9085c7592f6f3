//! What a SELECT computes: a plan of its FROM, WHERE, groups and windows, and its result columns over its
//! rows. It promises both of each typed SELECT of joined tables or of none; that the plan has, in some order,
//! the rows on which these are computed, with their values; and that the SELECT can reach what they reach.
//!
//! Its modules, in order: `columns` (what it reads of its tables), `base` (the rows of FROM, of groups or of
//! windows, and what is computed on them) and `laws`.
mod base;
mod columns;
pub mod laws;

pub use base::{Base, base_of};
