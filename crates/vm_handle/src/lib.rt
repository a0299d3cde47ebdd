//! The driver's side of one handle: how its calls are begun and answered, the messages of the
//! device that are delivered to it, and its log, legal at all times.
//!
//! Begin with `Handle`. Its main definitions are in `specs/Handle.antt` and `specs/Answers.antt`.
#![tactic(auto)]

mod answer;
mod deliver;
mod handle;
mod laws;
mod message;
mod stage;
mod start;
mod started;

pub use handle::Handle;
pub use laws::steps_leave_calls_underway;
pub use stage::Stage;
pub use started::Started;
pub use vm_log::Leased;

#[cfg(test)]
mod tests;
