/// A step of the world: a process of the driver, the device, or a worker does one thing.
///
/// Source: own.
#[derive(Clone, Copy, Debug, PartialEq, Eq)]
pub enum Step {
    /// A process begins its next line.
    Issue(u32),
    /// The device takes the first request.
    Execute,
    /// The call of a session that waits goes on.
    Resume(u32),
    /// A job of a session begins.
    Begin(u32),
    /// The job of a number comes back.
    Finish(u64),
    /// The device sends the oldest event that is unsent.
    Announce,
    /// The driver takes the first reply.
    Collect,
    /// The driver takes the first event.
    Pump,
    /// A process begins a line that touches a memory's bytes.
    Lease(u32),
    /// A process's lease comes back.
    GiveBack(u32),
}
