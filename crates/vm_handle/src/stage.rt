use vm_local::Call;

/// What became of the line of a handle that was begun last.
///
/// Source: own.
#[derive(Clone, Copy, Debug, PartialEq, Eq)]
pub enum Stage {
    /// No call is out: the line is answered, or its memory is out with a lease.
    AtRest,
    /// Its call crosses to the device, and isn't answered.
    Underway { line: u32, call: Call },
    /// Its `dqbuf` waits for a buffer.
    Waiting { line: u32, call: Call },
}
