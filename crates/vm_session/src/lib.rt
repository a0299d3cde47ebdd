//! A session of the device: what it keeps for one open handle of a guest, what it answers to the
//! calls that the handle sends, and its frames: how they begin, come back and are told of.
//!
//! Begin with `Session`. Its main definitions are its table of calls, `ioctl_row`, in
//! `specs/Rows.antt`, and how frames begin, come back and are told of, in `specs/Streaming.antt`.
#![tactic(auto)]

mod buffers;
mod calls;
mod events;
mod formats;
mod frames;
mod heads;
mod inputs;
mod laws;
mod lists;
mod looks;
mod on_off;
mod qbuf;
mod queue;
mod queues;
mod requests;
mod returns;
mod running;
mod session;
mod streaming;
mod subscriptions;
mod unsent;

pub use laws::{answers_have_the_size_of_requests, requests_are_read};
pub use running::Running;
pub use session::Session;
pub use unsent::Unsent;

#[cfg(test)]
mod tests;
