//! The events that a driver takes from the device's chains, and those that it holds back until a
//! call is answered.
//!
//! Begin with `open_event` and `Pump`. Their main definitions are in `specs/Pump.antt`.
#![tactic(auto)]

mod opened;
mod pump;

pub use opened::open_event;
pub use pump::{HANDLE_ROOM, Pump};

#[cfg(test)]
mod tests;
