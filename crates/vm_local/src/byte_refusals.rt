//! The refusals of the calls on mappings and their bytes.
ghost use Rattle.std.specs.Prelude.{◌≡◌, ℕ, List, length};
ghost use Rattle.vm_local.specs.Memory.{named, is_mapping, is_user, is_writable, memory_of};
ghost use Rattle.vm_local.specs.Calls.{munmap_row, read_row, hash_row, write_row, fill_row};
ghost use Rattle.v4l_rules.specs.Refusals.{first_refusal};

use crate::name::Name;
use crate::record::Record;
use v4l_const::Errno;

impl Record {
    /// The refusals of `munmap`.
    #[tactic(auto, unfolding(crate::specs::Calls::munmap_row))]
    pub(crate) fn munmap_refusal(&self, m: &Name) -> Option<Errno>
        ensures { result ≡ first_refusal (munmap_row self.now.local m.now).refusals }
    {
        if self.is_mapping(m) {
            None
        } else {
            Some(Errno::Einval)
        }
    }

    /// The refusals of `read`.
    #[tactic(auto, unfolding(crate::specs::Calls::read_row))]
    pub(crate) fn read_refusal(&self, m: &Name, off: u32, len: u32) -> Option<Errno>
        ensures { result ≡ first_refusal (read_row self.now.local m.now off len).refusals }
    {
        if self.named(m).is_none() {
            return Some(Errno::Efault);
        }
        let memory = self.memory_named(m);
        if u64::from(off) + u64::from(len) > u64::from(self.length_of(memory)) {
            return Some(Errno::Efault);
        }
        if self.queues.lend(memory) {
            return Some(Errno::Ebusy);
        }
        None
    }

    /// The refusals of `hash`.
    #[tactic(auto, unfolding(crate::specs::Calls::hash_row))]
    pub(crate) fn hash_refusal(&self, m: &Name) -> Option<Errno>
        ensures { result ≡ first_refusal (hash_row self.now.local m.now).refusals }
    {
        if self.named(m).is_none() {
            return Some(Errno::Efault);
        }
        if self.queues.lend(self.memory_named(m)) {
            return Some(Errno::Ebusy);
        }
        None
    }

    /// The refusals of `write`.
    #[tactic(auto, unfolding(crate::specs::Calls::write_row))]
    pub(crate) fn write_refusal(&self, m: &Name, off: u32, bytes: &[u8]) -> Option<Errno>
        ensures { result ≡ first_refusal (write_row self.now.local m.now off bytes.now).refusals }
    {
        if self.named(m).is_none() {
            return Some(Errno::Efault);
        }
        let memory = self.memory_named(m);
        let length = u64::from(self.length_of(memory));
        if u64::from(off) > length || bytes.len() as u64 > length - u64::from(off) {
            return Some(Errno::Efault);
        }
        if !self.is_writable(m) {
            return Some(Errno::Eacces);
        }
        if self.queues.use_memory(memory) {
            return Some(Errno::Ebusy);
        }
        None
    }

    /// The refusals of `fill`.
    #[tactic(auto, unfolding(crate::specs::Calls::fill_row))]
    pub(crate) fn fill_refusal(&self, m: &Name) -> Option<Errno>
        ensures { (seed : ℕ) → result ≡ first_refusal
            (fill_row self.now.local m.now seed).refusals }
    {
        if self.named(m).is_none() {
            return Some(Errno::Efault);
        }
        if !self.is_writable(m) {
            return Some(Errno::Eacces);
        }
        if self.queues.use_memory(self.memory_named(m)) {
            return Some(Errno::Ebusy);
        }
        None
    }

    /// Whether a name is bound to a mapping.
    fn is_mapping(&self, name: &Name) -> bool
        ensures { result ≡ is_mapping (named self.now.local name.now) }
    {
        match self.named(name) {
            Some(bound) => bound.kind.is_mapping(),
            None => false,
        }
    }

    /// Whether a name is bound to user memory.
    pub(crate) fn is_user(&self, name: &Name) -> bool
        ensures { result ≡ is_user (named self.now.local name.now) }
    {
        match self.named(name) {
            Some(bound) => !bound.kind.is_mapping(),
            None => false,
        }
    }

    /// Whether a memory may be written through a name.
    fn is_writable(&self, name: &Name) -> bool
        ensures { result ≡ is_writable (named self.now.local name.now) }
    {
        match self.named(name) {
            Some(bound) => bound.kind.is_writable(),
            None => false,
        }
    }

    /// The number of the memory that a name is bound to, 0 where it isn't.
    pub(crate) fn memory_named(&self, name: &Name) -> u64
        ensures { result ≡ memory_of (named self.now.local name.now) }
    {
        match self.named(name) {
            Some(bound) => bound.memory,
            None => 0,
        }
    }
}
