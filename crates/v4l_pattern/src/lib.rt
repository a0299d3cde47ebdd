//! The pictures that a camera's inputs show, whole.
//!
//! Begin with `fill_pattern`. Its main definition is the whole picture, `pattern_picture`, in
//! `v4l_format`'s `specs/Picture.antt`; those in `specs/Lines.antt` say how it is made line by
//! line.
#![tactic(auto)]

mod fill;
mod line_kind;
mod lines;
mod shown;

pub use fill::fill_pattern;

#[cfg(test)]
mod tests;
