//! Jobs: one frame's work for a device, with the memories that it needs, as it goes out and as it
//! comes back.
//!
//! Begin with `Job`. Its main definitions are that a done job has its picture, `HasPicture`, and
//! that it came back as it went out, `CameBack`, in `specs/Job.antt`.
#![tactic(auto)]

mod done_job;
mod job;
mod job_out;
mod spec;

pub use done_job::{DoneJob, Stranger};
pub use job::Job;
pub use job_out::{JobOut, entry_of};
pub use spec::{JobName, JobSpec};

#[cfg(test)]
mod tests;
