//! Sources and sinks for tests, which fail, or give other bytes, where a script says so. It promises that
//! each says of itself what it does: which bytes it has, whether they stay, and how often it failed.
//!
//! The modules: `script_source` and `script_sink`.
#![tactic(auto)]

mod script_sink;
mod script_source;

pub use script_sink::ScriptSink;
pub use script_source::{ReadScript, ScriptSource};
