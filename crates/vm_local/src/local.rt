ghost use Rattle.std.specs.Prelude.{◌≡◌, length};
ghost use Rattle.vm_local.specs.State.{opening};

use crate::bytes::Bytes;
use crate::record::Record;
use std::alloc::Global;
use std::marker::Model;

/// One V4L2 handle as a process alone on a machine would see it: the plain slow machine. It is a
/// record with the bytes of each memory.
#[derive(Drop)]
pub struct Local {
    pub(crate) record: Record,
    /// The memories by their numbers.
    pub(crate) memories: Vec<Bytes>,
}

impl Model for Local {
    ghost use Rattle.std.specs.Prelude.{◌≡◌};
    ghost use Rattle.vm_local.specs.State.{LocalState};
    ghost use Rattle.vm_local.specs.Record.{without_bytes, with_memories};

    ghost Value = { LocalState };

    ghost view = { λ l. with_memories l.record.local l.memories.items };

    ghost invariant = { λ l. l.record.local ≡
        without_bytes (with_memories l.record.local l.memories.items) };
}

impl Local {
    /// A handle of this model, closed and with nothing bound.
    pub fn new(alloc: Global, model: v4l_const::Model) -> Local
        ensures { result ≡ opening model }
    {
        Local {
            record: Record::new(alloc, model),
            memories: Vec::new(alloc),
        }
    }

    /// How many events are listed: those that the guest has yet to take.
    pub fn events_listed(&self) -> usize
        ensures { result ≡ length self.now.events }
    {
        self.record.events_listed()
    }
}
