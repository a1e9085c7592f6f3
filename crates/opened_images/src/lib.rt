//! An image in memory that is held for a program in another language: with the session of its statements, and with the reply
//! to the last step, which such a program looks at until it makes the next one. It promises of each step what a session
//! promises, and of the next row the exact answer with no premise left, since nothing else changes the bytes; that what is
//! looked at is what the last step gave, on the slot that is asked for; and that an image that was refused keeps the fault of
//! its opening, whatever is asked of it.
//!
//! The modules, in the order in which data passes them: `image` (an image, its steps and its last reply) and `details`
//! (what a fault carries).
#![tactic(auto)]

mod details;
mod image;

pub use details::detail;
pub use image::OpenImage;
