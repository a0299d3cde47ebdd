//! Pictures converted from one format to another of the same size.
//!
//! Begin with `convert`. Its main definition is the whole picture, `converted_picture`, in
//! `v4l_format`'s `specs/Picture.antt`; those in `specs/Lines.antt` say how it is made line by
//! line.
#![tactic(auto)]

mod copy;
mod kernel;
mod line;
mod line_kind;
mod pair;
mod pairs;
mod pixel;
mod plane;

pub use pairs::convert;

#[cfg(test)]
mod tests;
