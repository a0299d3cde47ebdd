use crate::{Job, JobSpec};
use std::marker::Model;

/// A job that came back. Where it is good, its picture stands at the front of the memory for it.
///
/// Source: own.
#[derive(Drop)]
pub struct DoneJob {
    pub job: Job,
    /// Whether the picture was made. The memories of a bad job are as they went out.
    pub good: bool,
}

impl Model for DoneJob {
    ghost use Rattle.std.specs.Prelude.{IsTrue};
    ghost use Rattle.vm_job.specs.Job.{DoneParts, HasPicture};

    ghost Value = { DoneParts };

    ghost view = { λ d. record { job = d.job; good = d.good } };

    ghost invariant = { λ d. IsTrue d.good → HasPicture d.job };
}

/// A done job that nobody waits for, handed back with the spec of the job that is out under its
/// number, if one is.
///
/// Source: own.
#[derive(Drop)]
pub struct Stranger {
    pub done: DoneJob,
    pub spec: Option<JobSpec>,
}
