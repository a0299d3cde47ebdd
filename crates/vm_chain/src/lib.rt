//! Chains of descriptors: the walk of a table from a head on, or its first fault.
//!
//! Begin with `walk`. Its main definition is the walk or its first fault, `walk_of`, in
//! `specs/Walk.antt`.
#![tactic(auto)]

mod chain;
mod desc;
mod fault;
mod table;

pub use chain::Chain;
pub use desc::{Desc, INDIRECT, NEXT, WRITE};
pub use fault::{ChainFault, ChainKind};
pub use table::walk;

#[cfg(test)]
mod tests;
