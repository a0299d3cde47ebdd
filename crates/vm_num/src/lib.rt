//! Little-endian numbers in runs of bytes, and counts of pages.
//!
//! Begin with `le32`, `put32` and `pages_of`. Its contracts cite std's definitions of numbers and
//! their bytes, and it has none of its own.
//!
//! Source: VIRTIO 1.3, 1.4 "Structure Specifications" (le16, le32, le64); the size of a page and
//! `align_up` are own.
#![tactic(auto)]

mod bytes;
mod pages;

pub use bytes::{le16, le32, le64, put16, put32, put64};
pub use pages::{align_up, pages_of};

#[cfg(test)]
mod tests;
