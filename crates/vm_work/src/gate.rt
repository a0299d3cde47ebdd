use vm_job::JobName;

/// What each job passes before its work, outside of every lock: it may wait there.
///
/// Source: own.
pub trait Gate: Sync {
    /// Lets the job of this name pass.
    fn pass(&self, name: JobName);
}

/// A gate that does nothing.
///
/// Source: own.
#[derive(Clone, Copy, Debug, Default, PartialEq, Eq)]
pub struct OpenGate;

impl Gate for OpenGate {
    fn pass(&self, _name: JobName) {}
}
