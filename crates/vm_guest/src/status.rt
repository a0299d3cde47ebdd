/// What a process does.
///
/// Source: own.
#[derive(Clone, Copy, Debug, PartialEq, Eq)]
pub enum Status {
    /// None of its statements is under way.
    AtRest,
    /// Its next statement was begun, and its chain is on the link.
    Crossing,
    /// Its next statement is a `dqbuf` that waits for a buffer.
    Blocked,
    /// Its next statement's memory is out with a lease.
    Lent,
}
