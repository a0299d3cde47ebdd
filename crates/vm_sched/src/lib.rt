//! The schedule of a seed: which of the steps that may come next is taken, and who does the work
//! that goes out of the world.
//!
//! Begin with `run_schedule`. Its main definition is the run that a seed gives, in `vm_realm`'s
//! `specs/Schedule.antt`; what is in hand while it runs is in `specs/Hands.antt`.
#![tactic(auto)]

mod doing;
mod hands;
mod laws;
mod schedule;

pub use laws::{nothing_is_out_at_first, schedules_lead};
pub use schedule::run_schedule;

#[cfg(test)]
mod tests;
