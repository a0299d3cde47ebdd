use v4l_const::Model;
use v4l_format::Fmt;

/// What a job is to make, for whom, and under which number.
///
/// Source: own.
#[derive(Clone, Copy, Debug, PartialEq, Eq)]
pub struct JobSpec {
    /// The wire id of the session.
    pub session: u32,
    /// The job's ticket: the host's jobs are counted from 0.
    pub number: u64,
    pub model: Model,
    /// The camera's input, from 0.
    pub input: u32,
    /// The frame's sequence number on the queue of pictures.
    pub seq: u32,
    /// The format of the source. A camera's job has none, and any adjusted format stands here.
    pub src: Fmt,
    /// The format of the picture.
    pub dst: Fmt,
}

impl JobSpec {
    ghost use Rattle.std.specs.Prelude.{◌≡◌};

    /// The name under which a gate lets the job pass.
    pub fn name(&self) -> JobName
        ensures { result ≡ record { session = self.now.session; number = self.now.number } }
    {
        JobName {
            session: self.session,
            number: self.number,
        }
    }
}

/// What a job is called: its session's wire id and its own number.
///
/// Source: own.
#[derive(Clone, Copy, Debug, PartialEq, Eq)]
pub struct JobName {
    pub session: u32,
    pub number: u64,
}
