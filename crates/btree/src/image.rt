//! Definitions of the pages and trees of an image, and laws of them: a sound tree has a shape, and the cells
//! under its root, from left to right, are its cells, each once and in order. The only code here is the names
//! of kinds.
//!
//! Its modules: `kind` (the kinds of trees and pages) and `laws`.
mod kind;
pub mod laws;

pub use kind::{Level, MOST_LEVELS, TreeKind};
