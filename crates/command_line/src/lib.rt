//! What a command line asks for. It promises that the cache is to keep a page at least, and no more than may be. The one
//! module is `args`. It is apart from `shell` since it takes long to prove what drops its parser's types: `shell` has
//! none of them.
#![tactic(auto)]

mod args;

pub use args::{Args, MAX_CACHE};
