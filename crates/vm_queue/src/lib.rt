//! The device's side of a queue of buffers: each buffer is at home, queued or out.
//!
//! Begin with `BufQueue`. Its main definition is which buffers are queued and which are out,
//! `Buffers`, in `specs/Buffers.antt`.
#![tactic(auto)]

mod buf_queue;
mod lists;
mod queued;

pub use buf_queue::{BufQueue, MAX_BUFFERS};
pub use queued::Queued;

#[cfg(test)]
mod tests;
