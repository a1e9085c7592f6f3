//! The least and the greatest of the values in ranges of a sequence. It promises that each is exactly `min`
//! or `max` of the definition of aggregates over the values there that aren't NULL, whatever is between the
//! ranges.
//!
//! Its modules, in order: `levels` (the first of the values of each stretch of one width) and `firsts` (those
//! of each power of two, and of ranges from them).
mod firsts;
mod levels;

pub use firsts::Firsts;
