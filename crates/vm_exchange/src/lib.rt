//! How each call of a handle is begun, by which command it crosses to the device, what the device
//! answers for each reply that the call may have, and which reply the driver reads in that answer.
//!
//! Begin with `way_of`. Its main definitions are how a call is begun and what crosses for it, in
//! `specs/Exchange.antt`, over the handle's state; they are worked from its record.
#![tactic(auto)]

mod answer;
mod crossing;
mod entries;
mod laws;
mod qbuf;
mod response;
mod user_place;
mod way;
mod ways;

pub use answer::reply_in;
pub use crossing::Crossing;
pub use entries::encode_crossing;
pub use laws::{
    answers_fit, crossings_fit, each_call_has_its_way, entries_are_read_again,
    numbers_stay_in_range, records_exchange_as_states,
};
pub use response::response_to;
pub use user_place::UserPlace;
pub use way::Way;
pub use ways::{command_of, crossing_of, touches_memory, way_of};

#[cfg(test)]
mod tests;
