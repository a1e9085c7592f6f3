//! The pages, cells and payloads of an image, read with every bound tested and nothing trusted, and which
//! pages are used. It promises that bytes are taken for a page exactly where its header says so, that a cell
//! is given exactly where the bytes have it, and a payload exactly where its overflow pages are a chain; that
//! the cells under the root of a sound tree, from left to right, are its cells, each once and in order; that
//! a page reported as reused has two owners; and that where all parts of the check pass, each page is used
//! exactly once and the freelist has as many pages as the header says.
//!
//! The modules, in the order in which data passes them: `image` (what the pages and trees of an image are:
//! definitions that the cursor, the check of an image and every plan cite), `page` (a page's header and cell
//! places), `cell` (a cell and the part of its payload that is stored in it), `chains` (a whole payload, with
//! its overflow pages), and `page_use` (which pages of an image are used, and how often).
#![tactic(auto)]

mod cell;
mod chains;
pub mod image;
mod page;
pub mod page_use;

pub use cell::{Cell, Payload};
pub use chains::payload;
pub use image::{Level, MOST_LEVELS, TreeKind};
pub use page::{PageView, view_in, view_of};
pub use page_use::{check_rest, use_page};
