//! The memories of a handle that are with the driver, and which of them each entry of its log
//! moves.
//!
//! Begin with `Home`. Its main definition is where each memory is, in `specs/Home.antt`.
#![tactic(auto)]

mod home;
mod laws;

pub use home::Home;
pub use laws::{
    a_line_works_on_a_memory_that_is_at_home, a_queued_memory_goes_to_the_device_and_back,
    each_memory_has_one_owner, few_entries_and_memories_are_to_come, memories_begin_at_home,
    other_entries_leave_memories_in_place, stopped_queues_give_their_memories_back,
};

#[cfg(test)]
mod tests;
