//! The bytes of a chain in the pages that came with it: what the device may read of it, and what it
//! writes.
//!
//! Begin with `gather` and `spread`. Its main definitions are what may be read, `readable_of`, and
//! the pages with a reply written, `written`, in `specs/Carrier.antt`.
#![tactic(auto)]

mod carrier;
mod laws;

pub use carrier::{gather, spread};
pub use laws::{replies_are_spread, walks_fit};

#[cfg(test)]
mod tests;
