//! The memory of buffers: frames, and users' memory that lies scattered over pages.
//!
//! Begin with `Frame`, `User` and `Mem`. Its main definitions are a buffer's bytes, `mem_bytes`, in
//! `specs/Mem.antt`, and those that scatter entries name, `scatter_bytes`, in `specs/Scatter.antt`.
#![tactic(auto)]

mod frame;
mod gather;
mod mem;
mod page_parts;
mod scatter;
mod user;

pub use frame::{Frame, Range};
pub use mem::{Held, Mem};
pub use scatter::{SgEntry, SgFault};
pub use user::{MAX_ENTRIES, MAX_PAGES, User};

#[cfg(test)]
mod tests;
