//! The log of one handle of the driver, legal at all times, with the memories of the handle that
//! are at home. It is what a handle keeps besides what crosses to the device.
//!
//! Begin with `LegalLog`. Its main definition is what a log keeps, in `specs/LegalLog.antt`.
#![tactic(auto)]

mod away;
mod calls;
mod device;
mod laws;
mod lease;
mod leased;
mod legal_log;
mod note;
mod places;

pub use away::Away;
pub use laws::steps_leave_what_is_out;
pub use leased::Leased;
pub use legal_log::LegalLog;

#[cfg(test)]
mod tests;
