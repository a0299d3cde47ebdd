//! What the device keeps, and what it does with commands, jobs and events, with no link, chain or
//! head in sight: the sessions by their ids, the jobs that are out, the events that are to be sent,
//! and the region in which frames are mapped.
//!
//! Begin with `Device`. Its main definitions are what a command may come to, `Performs`, in
//! `specs/Perform.antt`, and how jobs begin and come back, in `specs/Stream.antt`.
#![tactic(auto)]

mod brought;
mod calls;
mod device;
mod mappings;
mod sessions;
mod stream;

pub use device::Device;

#[cfg(test)]
mod tests;
