use vm_lease::Lease;

/// What became of a line that touches a memory.
///
/// Source: own.
#[derive(Drop)]
pub enum Leased {
    /// Its memory is out with this lease.
    Out(Lease),
    /// It was refused, and is logged.
    Answered,
    /// There was no such line to be begun.
    Idle,
}
