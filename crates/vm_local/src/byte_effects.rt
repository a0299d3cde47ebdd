//! What the calls on mappings and user memory do.
ghost use Rattle.std.specs.Prelude.{◌≡◌, ◌<◌, ◌≤◌, ◌+◌};
ghost use Rattle.vm_local.specs.Calls.{ualloc_row, mmap_row, munmap_row};

use crate::bound::{Bound, BoundKind};
use crate::name::Name;
use crate::names::{bind, remove_name};
use crate::record::Record;

impl Record {
    /// Makes zeroed user memory and binds it to a name.
    #[tactic(auto, unfolding(crate::specs::Calls::ualloc_row))]
    pub(crate) fn allocate(&mut self, line: u32, u: &Name, len: u32, off: u32)
        requires { 0 < self.old.room }
        ensures next { self.new.local ≡ (ualloc_row self.old.local line u.now len off).next }
        ensures room { self.old.room ≤ self.new.room + 1 }
    {
        let entry = Bound {
            name: *u,
            memory: self.memories_made(),
            kind: BoundKind::User { line, off },
        };
        bind(&mut self.bound, entry);
        self.lengths.push_reserved(len);
        self.room -= 1;
    }

    /// Binds a mapping of a buffer to a name.
    #[tactic(auto, unfolding(crate::specs::Calls::mmap_row))]
    pub(crate) fn map(&mut self, addr: u64, m: &Name, t: u32, i: u32, ro: bool)
        requires { 0 < self.old.room }
        ensures next { self.new.local ≡ (mmap_row self.old.local addr m.now t i ro).next }
        ensures room { self.old.room ≤ self.new.room + 1 }
    {
        let buffer = self.buffer_of(t, i);
        let entry = Bound {
            name: *m,
            memory: buffer.memory.unwrap_or(0),
            kind: BoundKind::Mapping {
                addr,
                length: buffer.length,
                writable: !ro,
            },
        };
        bind(&mut self.bound, entry);
        self.room -= 1;
    }

    /// Ends a mapping.
    #[tactic(auto, unfolding(crate::specs::Calls::munmap_row))]
    pub(crate) fn unmap(&mut self, m: &Name)
        ensures { self.new ≡ record self.old { local = (munmap_row self.old.local m.now).next } }
    {
        remove_name(&mut self.bound, m);
    }
}
