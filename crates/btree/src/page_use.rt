//! Which pages of an image are used, and how often. The check marks pages in one list, and ends at a page
//! that is already marked, so that no other is read twice. It promises that a page is reported as reused only
//! where two places name it, and that where all parts of the check pass each page is used exactly once.
//!
//! Its modules, in order: `marks` (the marks of single pages), `page` (a page that is read once), `chains` (a
//! whole payload, with its overflow pages), `freelist`, `rest` (what is left after the trees) and `laws`.
mod chains;
mod freelist;
pub mod laws;
mod marks;
mod page;
mod rest;

pub use chains::payload;
pub use marks::use_page;
pub use rest::check_rest;
