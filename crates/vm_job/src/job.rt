use crate::{DoneJob, JobSpec};
use std::marker::Model;
use vm_frame::Held;

/// One frame's work, with the memories that it needs.
///
/// The formats are adjusted, the input is one of the four, and the memory of the picture has at
/// least its size. There is a source exactly in a converter's job: at least a whole picture, in a
/// format of the same width and height.
///
/// Source: own.
#[derive(Drop)]
pub struct Job {
    pub spec: JobSpec,
    /// The buffer that holds the source.
    pub src: Option<Held>,
    /// The buffer that the picture goes to.
    pub dst: Held,
}

impl Model for Job {
    ghost use Rattle.vm_job.specs.Job.{JobParts, IsJob};

    ghost Value = { JobParts };

    ghost view = { λ j. record { spec = j.spec; src = j.src; dst = j.dst } };

    ghost invariant = { λ j. IsJob (record { spec = j.spec; src = j.src; dst = j.dst }) };
}

impl Job {
    ghost use Rattle.std.specs.Prelude.{◌≡◌, IsTrue};
    ghost use Rattle.vm_job.specs.Job.{HasPicture};

    /// The job as it comes back, good or bad. A good one has its picture.
    pub fn done(self, good: bool) -> DoneJob
        requires { IsTrue good → HasPicture self }
        ensures { result ≡ record { job = self; good = good } }
    {
        DoneJob { job: self, good }
    }
}
