//! Pictures by their pixels: one pixel's samples read from a store of bytes, and set there.
//!
//! Begin with `Image`. Its main definition is a byte once a pixel is set, `byte_put`, in
//! `specs/Samples.antt`; which byte carries what is in `v4l_format`'s `specs/SampleOrder.antt`.
#![tactic(auto)]

mod image;
mod samples;

pub use image::Image;
pub use v4l_format::Triple;

#[cfg(test)]
mod tests;
