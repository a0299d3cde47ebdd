//! The link between the driver and the device: two queues of parcels, for commands and for events.
//!
//! Begin with `Link`. Its main definition is each queue's size and three lists, `Queue`, in
//! `specs/Queue.antt`.
#![tactic(auto)]

mod chain_lists;
mod chains;
mod heads;
mod link;
mod parcel;
mod parcel_walk;
mod plain_link;
mod plain_queue;

pub use chains::{DoneChain, OutChain};
pub use link::{Link, QueueId, Turn};
pub use parcel::{Finished, Parcel, Taken};
pub use plain_link::PlainLink;

#[cfg(test)]
mod tests;
