//! A link whose queues are kept as the bytes of their rings.
//!
//! Begin with `SplitLink`. Its main definitions are what a page's bytes hold, `contents_of`, in
//! `specs/Ring.antt`, and that they stand for the queue's lists, `StandsFor`, in
//! `specs/Stands.antt`.
//!
//! Source: VIRTIO 1.3, 2.7 "Split Virtqueues".
#![tactic(auto)]

mod entry;
mod laying;
mod owners;
mod parcel_walk;
mod parcels;
mod places;
mod ring;
mod split_link;
mod split_queue;

pub use split_link::SplitLink;

#[cfg(test)]
mod tests;
