//! Scatter lists: the memory of a user as it is made, the entries as the wire brings them, and
//! copies to and from the bytes that they name.
//!
//! Begin with `of_user`, `check` and `load`. Its main definitions are the memory of a line,
//! `user_memory`, in `specs/UserMemory.antt`, and the entries that bytes are, `entries_in`, in
//! `specs/Wire.antt`.
#![tactic(auto)]

mod copies;
mod faults;
mod user_memory;
mod wire;

pub use copies::{gather_into, scatter_from};
pub use faults::{check, total};
pub use user_memory::of_user;
pub use vm_frame::SgFault;
pub use wire::{load, total_in};

#[cfg(test)]
mod tests;
