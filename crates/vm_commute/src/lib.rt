//! When a call and the device's own steps can be taken in either order: a law of the local handle.
//!
//! It has laws alone: begin with `calls_go_before_steps`. Its main definition is which calls may go
//! first, `may_go_first`, in `specs/Commute.antt`.
#![tactic(auto)]

mod laws;

pub use laws::{calls_go_before_steps, refusals_come_before_steps};
