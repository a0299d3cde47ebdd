//! Memory that moves by ownership: what a store of bytes is, and the pages of a guest.
//!
//! Begin with `Store` and `GuestMemory`. Its main definition is the pages of a guest, `Pages`, in
//! `specs/GuestMemory.antt`; what a store is stands in the trait.
#![tactic(auto)]

mod guest_memory;
mod memory;
mod page;
mod page_bytes;
mod store;

pub use guest_memory::{AddError, GuestMemory};
pub use memory::Memory;
pub use page::{PAGE_SIZE, Page, lies_in_page};
pub use store::Store;

#[cfg(test)]
mod tests;
