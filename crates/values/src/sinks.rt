//! The sinks that answers are written to. It promises of each that what it took comes after what it had, and
//! that a failed write is counted; and that what is gathered comes to the inner sink whole and in order, or
//! is reported as not written.
//!
//! Its modules, in order: `gathered` (a sink that gathers small writes into large ones), `memory` (one over
//! memory) and `writer` (one over any writer).
mod gathered;
mod memory;
mod writer;

pub use gathered::Gathered;
pub use memory::MemSink;
pub use writer::WriteSink;
