//! The text of a run: the logs that its driver and its device leave, in the script's words.
//!
//! Begin with `text_of_run`. Its main definitions are the logs that are left of a run and the words
//! in which they are told, in `specs/Printing.antt`, and which logs are those of a script's lines, in
//! `specs/ScriptLogs.antt`.
#![tactic(auto)]

mod echoes;
mod laws;
mod lent;
mod report;

pub use laws::{done_worlds_have_their_logs, the_first_line_opens_its_handle};
pub use report::text_of_run;

#[cfg(test)]
mod tests;
