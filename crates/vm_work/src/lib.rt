//! A job's work: past a gate, one try of the engine, and the picture where that went well.
//!
//! Begin with `work`. Its main definitions are `HasPicture` and `CameBack`, in `vm_job`'s
//! `specs/Job.antt`; it has none of its own.
#![tactic(auto)]

mod gate;
mod working;

pub use gate::{Gate, OpenGate};
pub use working::work;

#[cfg(test)]
mod tests;
