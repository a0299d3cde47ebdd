//! Marks: which of the numbers below a count are marked, and the marked ones in order, so that
//! nobody has to scan all numbers for them.
//!
//! Begin with `Marks`. Its main definition is the marked numbers in order, `places_of`, in
//! `specs/Marks.antt`.
#![tactic(auto)]

mod marks;

pub use marks::Marks;

#[cfg(test)]
mod tests;
