//! The library that programs in other languages link: `include/seleq.h` is its page. It has exports alone. Each calls one
//! function of `opened_images` and states its clauses again, of what the image kept before and after; what is asked of an
//! image that isn't open is answered so, and touches nothing.
//!
//! What C holds of an image is a struct with one pointer. The modules: `parts` (a box taken apart), `handle` and `lent` (a box
//! that C holds, and what is in it), `image` and `column` (what C sees of an image and of a value), `statuses` (what a call
//! answers), and then the exports: `opening`, `statements` and `lookups`.
#![tactic(auto)]

mod column;
mod handle;
mod image;
mod lent;
mod lookups;
mod opening;
mod parts;
mod statements;
mod statuses;

pub use column::Column;
pub use image::Image;
pub use lookups::{seleq_column, seleq_columns, seleq_fault, seleq_name};
pub use opening::{seleq_close, seleq_open};
pub use statements::{seleq_end, seleq_start, seleq_step};
