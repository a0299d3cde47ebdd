//! The device at its end of the link: it takes the chains that the driver posts, does what they
//! ask, and finishes them; calls that stop a busy session wait. What is done with commands, jobs
//! and events is `vm_device`'s.
//!
//! Begin with `Host`. Its main definitions are the device's steps over the link's queues, in
//! `specs/Steps.antt`, and over what is said on the link, in `specs/Part.antt`.
#![tactic(auto)]

mod chains;
mod host;
mod laws;
mod waiting;

pub use host::Host;
pub use laws::{
    announcing_is_the_part, closing_leaves_the_journal, each_step_does_little,
    few_steps_leave_places, resuming_is_the_part, serving_is_the_part,
    what_can_be_done_is_the_parts,
};
pub use waiting::Waiting;

#[cfg(test)]
mod tests;
