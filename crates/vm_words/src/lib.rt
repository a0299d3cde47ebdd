//! The words of the command line: which are served, and what they ask for.
//!
//! Begin with `command_of`. Its main definition is `command_in`, in `specs/Command.antt`: the words
//! are judged by this rule alone. Words that it served are then read with `clap`.
#![tactic(auto)]

mod command;
mod judge;
mod parse;

pub use command::{Command, Task};
pub use parse::command_of;

#[cfg(test)]
mod tests;
