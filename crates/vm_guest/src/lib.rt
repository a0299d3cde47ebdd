//! The driver: processes that make calls on their handles. It begins their statements, posts what
//! crosses to the device, answers them with what comes back, and delivers the device's events.
//!
//! Begin with `Guest`. Its main definitions are the driver's part of each step over what is said on
//! the link, in `specs/Part.antt`, and the same over the link's queues, in `specs/Queues.antt`.
#![tactic(auto)]

mod asked;
mod caller;
mod calls;
mod chain;
mod fresh;
mod guest;
mod laws;
mod raw;
mod seat;
mod status;
mod table;

pub use asked::{Asked, Statement};
pub use chain::{EVENT_CHAINS, event_chain};
pub use guest::Guest;
pub use laws::{
    lines_that_are_read_fit, raw_lines_ask_by_their_chains, refusals_are_told,
    what_is_collected_is_the_part, what_is_issued_is_the_part, what_is_pumped_is_the_part,
};
pub use seat::Seat;
pub use status::Status;

#[cfg(test)]
mod tests;
