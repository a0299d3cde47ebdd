//! Leases: the memory of a line that reads, hashes, writes or fills it, while the line's work is
//! done.
//!
//! Begin with `Lease::apply`. Its main definition is what a call does on a memory's bytes, in
//! `specs/Lease.antt`.
#![tactic(auto)]

mod lease;
mod lease_out;
mod parts;

pub use lease::Lease;
pub use lease_out::{LeaseOut, entry_of};

#[cfg(test)]
mod tests;
