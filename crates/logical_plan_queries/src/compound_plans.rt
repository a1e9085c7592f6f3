//! The plans of the SELECTs of a compound. It promises that there are such plans exactly where each SELECT is
//! one of joined tables or of none; that each has, in some order, the rows on which its SELECT computes its
//! result columns, and reaches nothing that the SELECT can't reach; and that the same operators combine them.
//!
//! Its one module is `arms` (a plan for each SELECT).
mod arms;

pub use arms::arms_of;
