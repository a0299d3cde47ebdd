//! The script of a bulk run, as a text.
//!
//! Begin with `make_script`. Its main definition is the script's lines, in `specs/Bulk.antt`.
#![tactic(auto)]

mod laws;
mod script;

pub use laws::bulk_scripts_are_read;
pub use script::make_script;

#[cfg(test)]
mod tests;
