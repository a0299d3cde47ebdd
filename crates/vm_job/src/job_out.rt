ghost use Rattle.vm_job.specs.Entry.{IsOf};

use crate::{Job, JobSpec};
use std::snapshot::Snapshot;
use vm_frame::Held;

/// A job as it went out: its spec, and what its memories were then.
///
/// Source: own.
#[derive(Drop)]
pub struct JobOut {
    pub spec: JobSpec,
    pub src: Snapshot<Option<Held>>,
    pub dst: Snapshot<Held>,
}

/// The entry of a job that goes out.
pub fn entry_of(job: &Job) -> JobOut
    ensures { IsOf result job.now }
{
    JobOut {
        spec: job.spec,
        src: Snapshot::of(&job.src),
        dst: Snapshot::of(&job.dst),
    }
}
