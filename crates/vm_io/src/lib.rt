//! The outside of the product: where its script comes from, where its text goes, and the device's
//! working unit. Each may fail, and counts its faults. The rules are this project's own.
//!
//! Begin with `read_all` and `write_all`, over the traits `Source` and `Sink`. Its main definitions
//! are what became of bytes, in `specs/Bytes.antt`, and that a count rose, `Rose`, in
//! `specs/Faults.antt`.
#![tactic(auto)]

mod engine;
mod failed;
mod fault_plan;
mod mem_sink;
mod mem_source;
mod reading;
mod scripted_engine;
mod sink;
mod source;
mod std_sink;
mod std_source;
mod sure_engine;
#[cfg(test)]
mod tests;
mod writing;

pub use engine::Engine;
pub use failed::Failed;
pub use mem_sink::MemSink;
pub use mem_source::MemSource;
pub use reading::{ReadError, read_all};
pub use scripted_engine::ScriptedEngine;
pub use sink::Sink;
pub use source::Source;
pub use std_sink::StdSink;
pub use std_source::StdSource;
pub use sure_engine::SureEngine;
pub use writing::{WriteFault, write_all};
