//! What the crates above share: the values of a table and their order, the faults with which a call refuses,
//! and the sinks that answers are written to. It promises a total order of values in which only equal values
//! tie, the exact bytes of a value's literal, and that a write that fails has written a beginning of its
//! text; that what a sink took comes after what it had; and that what the gathering sink takes comes to its
//! inner sink whole and in order, or is reported as not written.
//!
//! The modules, in the order in which data passes them: `value` (a value, owned or borrowed), `row` (a list
//! of values), `fault` (every way in which a call refuses), `sink` (where bytes are written to, and whole
//! texts), `literal` (a value as SQL text), `laws`, and `sinks` (sinks over memory, over any writer, and one
//! that gathers small writes into large ones).
#![tactic(auto)]

mod fault;
pub mod laws;
mod literal;
mod row;
mod sink;
mod sinks;
mod value;

pub use fault::Fault;
pub use literal::write_literal;
pub use row::Row;
pub use sink::{Sink, SinkFault, write_all, write_front};
pub use sinks::{Gathered, MemSink, WriteSink};
pub use value::{Ty, Value, ValueRef, compare};
