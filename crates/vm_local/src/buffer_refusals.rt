//! The refusals of the calls on buffers and queues.
ghost use Rattle.std.specs.Prelude.{◌≡◌, ℕ, List, ◌∷◌, [], length, Bool, ◌==◌};
ghost use Rattle.std.specs.List.{list_any};
ghost use Rattle.vm_local.specs.Memory.{bytes_of};
ghost use Rattle.vm_local.specs.Queue.{brought, length_from, can_finish, is_owed};
ghost use Rattle.vm_local.specs.Calls.{reqbufs_row, querybuf_row, ualloc_row, qbuf_row, streamon_row, dqbuf_row, mmap_row, names_no_user, brings_used};
ghost use Rattle.v4l_rules.specs.Refusals.{first_refusal};

use crate::buffer::Buffer;
use crate::bytes::MEMORY_LIMIT;
use crate::name::Name;
use crate::owed::Owed;
use crate::record::Record;
use v4l_const::{Errno, MEMORY_MMAP, MEMORY_USERPTR};
use v4l_format::sizeimage;
use v4l_rules::is_source;

/// The last place of a page.
const PAGE_END: u32 = 4095;

impl Record {
    /// The refusals of `reqbufs`.
    #[tactic(auto, unfolding(crate::specs::Calls::reqbufs_row))]
    pub(crate) fn reqbufs_refusal(&self, t: u32, m: u32, n: u32) -> Option<Errno>
        ensures { result ≡ first_refusal (reqbufs_row self.now.local t m n).refusals }
    {
        if !self.opened {
            return Some(Errno::Ebadf);
        }
        let Some(queue) = self.queue(t) else {
            return Some(Errno::Einval);
        };
        if m != MEMORY_MMAP && m != MEMORY_USERPTR {
            return Some(Errno::Einval);
        }
        if n > 0 && queue.is_streaming() {
            return Some(Errno::Ebusy);
        }
        None
    }

    /// The refusals of `querybuf`.
    #[tactic(auto, unfolding(crate::specs::Calls::querybuf_row))]
    pub(crate) fn querybuf_refusal(&self, t: u32, i: u32) -> Option<Errno>
        ensures { result ≡ first_refusal (querybuf_row self.now.local t i).refusals }
    {
        if !self.opened {
            return Some(Errno::Ebadf);
        }
        let Some(queue) = self.queue(t) else {
            return Some(Errno::Einval);
        };
        if !queue.has_index(i) {
            return Some(Errno::Einval);
        }
        None
    }

    /// The refusals of `ualloc`.
    #[tactic(auto, unfolding(crate::specs::Calls::ualloc_row))]
    pub(crate) fn ualloc_refusal(&self, len: u32, off: u32) -> Option<Errno>
        ensures { (line : ℕ) (u : List ℕ) → result ≡
            first_refusal (ualloc_row self.now.local line u len off).refusals }
    {
        if !self.opened {
            return Some(Errno::Ebadf);
        }
        if len == 0 || len > MEMORY_LIMIT || off > PAGE_END {
            return Some(Errno::Einval);
        }
        None
    }

    /// The refusals of `streamon`.
    #[tactic(auto, unfolding(crate::specs::Calls::streamon_row))]
    pub(crate) fn streamon_refusal(&self, t: u32) -> Option<Errno>
        ensures { result ≡ first_refusal (streamon_row self.now.local t).refusals }
    {
        if !self.opened {
            return Some(Errno::Ebadf);
        }
        let Some(queue) = self.queue(t) else {
            return Some(Errno::Einval);
        };
        if !queue.has_buffers() {
            return Some(Errno::Einval);
        }
        None
    }

    /// The refusals of `dqbuf`.
    #[tactic(auto, unfolding(crate::specs::Calls::dqbuf_row))]
    pub(crate) fn dqbuf_refusal(&self, t: u32) -> Option<Errno>
        ensures { result ≡ first_refusal (dqbuf_row self.now.local t).refusals }
    {
        if !self.opened {
            return Some(Errno::Ebadf);
        }
        let Some(queue) = self.queue(t) else {
            return Some(Errno::Einval);
        };
        if !queue.is_streaming() {
            return Some(Errno::Einval);
        }
        if queue.has_done() {
            return None;
        }
        if !self.blocking {
            return Some(Errno::Eagain);
        }
        if !self.is_owed(t) && !self.queues.are_ready() {
            return Some(Errno::Edeadlk);
        }
        None
    }

    /// The refusals of `mmap`.
    #[tactic(auto, unfolding(crate::specs::Calls::mmap_row))]
    pub(crate) fn mmap_refusal(&self, t: u32, i: u32) -> Option<Errno>
        ensures { (addr : ℕ) (m : List ℕ) (ro : Bool) →
            result ≡ first_refusal (mmap_row self.now.local addr m t i ro).refusals }
    {
        if !self.opened {
            return Some(Errno::Ebadf);
        }
        let Some(queue) = self.queue(t) else {
            return Some(Errno::Einval);
        };
        if !queue.has_index(i) || queue.is_user_ptr() {
            return Some(Errno::Einval);
        }
        None
    }

    /// The refusals of `qbuf`.
    #[tactic(auto, unfolding(crate::specs::Calls::qbuf_row))]
    pub(crate) fn qbuf_refusal(
        &self,
        t: u32,
        i: u32,
        user: &Option<Name>,
        used: u32,
    ) -> Option<Errno>
        ensures { (ts : ℕ) → result ≡ first_refusal
            (qbuf_row self.now.local t i user.now used ts).refusals }
    {
        if !self.opened {
            return Some(Errno::Ebadf);
        }
        let Some(queue) = self.queue(t) else {
            return Some(Errno::Einval);
        };
        if !queue.has_index(i) {
            return Some(Errno::Einval);
        }
        let buffer = queue.buffer(i);
        if !buffer.state.is_idle() || user.is_some() != queue.is_user_ptr() {
            return Some(Errno::Einval);
        }
        if self.names_no_user(user) {
            return Some(Errno::Efault);
        }
        let memory = self.brought(user);
        let length = self.length_from(memory, &buffer);
        if user.is_some() && length < sizeimage(&queue.format()) {
            return Some(Errno::Einval);
        }
        if self.brings_used(memory) || (is_source(self.model, t) && used > length) {
            return Some(Errno::Einval);
        }
        None
    }

    /// Whether an entry of a queue is owed.
    fn is_owed(&self, t: u32) -> bool
        ensures { result ≡ is_owed self.now.local t }
    {
        has_owed(&self.owed, t)
    }

    /// The number of the user memory that a `qbuf` names.
    pub(crate) fn brought(&self, user: &Option<Name>) -> Option<u64>
        ensures { result ≡ brought self.now.local user.now }
    {
        match user {
            Some(name) => Some(self.memory_named(name)),
            None => None,
        }
    }

    /// The length that a buffer has from a `qbuf` on.
    pub(crate) fn length_from(&self, memory: Option<u64>, buffer: &Buffer) -> u32
        ensures { result ≡ length_from self.now.local memory buffer.now }
    {
        match memory {
            Some(memory) => self.length_of(memory),
            None => buffer.length,
        }
    }

    /// Whether a `qbuf` names user memory that isn't bound.
    fn names_no_user(&self, user: &Option<Name>) -> bool
        ensures { result ≡ names_no_user self.now.local user.now }
    {
        match user {
            Some(name) => !self.is_user(name),
            None => false,
        }
    }

    /// Whether a `qbuf` brings user memory of a buffer that isn't Idle.
    fn brings_used(&self, memory: Option<u64>) -> bool
        ensures { result ≡ brings_used self.now.local memory }
    {
        match memory {
            Some(memory) => self.queues.use_memory(memory),
            None => false,
        }
    }
}

fn has_owed(owed: &[Owed], t: u32) -> bool
    ensures { result ≡ list_any (λ o. o.queue == t) owed.now }
{
    owed.iter().any(|entry| entry.queue == t)
}
