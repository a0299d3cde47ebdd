//! What one end of the link writes, the other reads.
//!
//! It has laws alone: begin with `commands_are_read` and `replies_are_returned`. Its main
//! definitions are what the device reads of the driver's chains, in `specs/Across.antt`, that what
//! lines send is fit for it, in `specs/Lines.antt`, and the device's steps on these chains, in
//! `specs/Served.antt`.
#![tactic(auto)]

mod laws;

pub use laws::{
    chains_are_served, commands_are_read, events_are_delivered, lines_are_sent,
    replies_are_returned,
};
