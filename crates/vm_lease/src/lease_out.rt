ghost use Rattle.vm_lease.specs.Lease.{IsOf};

use crate::Lease;
use std::snapshot::Snapshot;
use vm_frame::Mem;
use vm_local::Call;

/// A lease as it went out: its line, its call, and what its memory was then.
///
/// Source: own.
#[derive(Drop)]
pub struct LeaseOut {
    pub line: u32,
    pub call: Call,
    pub mem: Snapshot<Mem>,
}

/// The entry of a lease that goes out.
pub fn entry_of(lease: &Lease) -> LeaseOut
    ensures { IsOf result lease.now }
{
    LeaseOut {
        line: lease.line,
        call: lease.call,
        mem: Snapshot::of(&lease.mem),
    }
}
