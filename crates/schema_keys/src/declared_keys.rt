//! The keys that a CREATE TABLE declares. It promises that `keys_of` gives all of them, each with its columns
//! in the key's order, as they are written one after the other; and that `primary_key` gives the PRIMARY KEY.
//!
//! Its one module is `keys` (of a text).
mod keys;

pub use keys::{Key, keys_of, primary_key};
