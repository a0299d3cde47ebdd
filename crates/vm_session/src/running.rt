use v4l_layout::BufferRec;
use vm_job::JobSpec;

/// What a session keeps of its running job: its spec, and the records with which the buffers were
/// queued that it took.
///
/// Source: own.
#[derive(Clone, Copy, Debug, PartialEq, Eq)]
pub struct Running {
    pub spec: JobSpec,
    /// That of the buffer that the picture is made from, where the device reads one.
    pub src: Option<BufferRec>,
    /// That of the buffer that the picture goes to.
    pub dst: BufferRec,
}
