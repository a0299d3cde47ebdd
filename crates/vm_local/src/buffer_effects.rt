//! What the calls on buffers and queues do.
ghost use Rattle.std.specs.Prelude.{◌≡◌, ◌==◌, ◌<◌, ◌≤◌, ◌+◌, List, Option, None, not, false, vec_len, vec_capacity};
ghost use Rattle.std.specs.List.{filter};
ghost use Rattle.vm_local.specs.Queue.{queued_buffer, memory_kind};
ghost use Rattle.vm_local.specs.Calls.{reqbufs_row, qbuf_row, streamon_row, streamoff_row, dqbuf_row};
ghost use Rattle.v4l_rules.specs.Refusals.{first_refusal};

use crate::bound::MemoryKind;
use crate::buffer::{Buffer, BufferState};
use crate::buffers::BUFFER_LIMIT;
use crate::fresh::{fresh_buffers, push_fresh};
use crate::name::Name;
use crate::owed::Owed;
use crate::record::Record;
use v4l_const::MEMORY_USERPTR;
use v4l_format::sizeimage;
use v4l_rules::is_source;

impl Record {
    /// Stops a queue and gives it other buffers.
    #[tactic(auto, unfolding(crate::specs::Calls::reqbufs_row, crate::specs::Queue::with_buffers))]
    pub(crate) fn renew_buffers(&mut self, t: u32, m: u32, n: u32)
        requires room { 0 < self.old.room }
        requires passes { first_refusal (reqbufs_row self.old.local t m n).refusals ≡ None }
        ensures next { self.new.local ≡ (reqbufs_row self.old.local t m n).next }
        ensures room { self.old.room ≤ self.new.room + 1 }
    {
        if let Some(place) = self.place_of(t) {
            let kind = memory_kind(m);
            let count = n.min(BUFFER_LIMIT as u32);
            let size = sizeimage(&self.format_of(t));
            let buffers = fresh_buffers(kind, size, self.memories_made(), count);
            self.queues.renew(place, kind, buffers);
            remove_owed(&mut self.owed, t);
            push_fresh(&mut self.lengths, kind, size, count);
            self.room -= 1;
        }
    }

    /// Queues a buffer.
    #[tactic(auto, unfolding(crate::specs::Calls::qbuf_row))]
    pub(crate) fn queue_buffer(&mut self, t: u32, i: u32, user: &Option<Name>, used: u32, ts: u32)
        requires { first_refusal (qbuf_row self.old.local t i user.now used ts).refusals ≡ None }
        ensures { self.new ≡ record self.old {
          local =
              (qbuf_row self.old.local t i user.now used ts).next;
        } }
    {
        let memory = self.brought(user);
        let buffer = self.queued_buffer(t, memory, used, ts, &self.buffer_of(t, i));
        if let Some(place) = self.place_of(t) {
            self.queues.queue_buffer(place, i, buffer);
        }
    }

    /// Starts a queue.
    #[tactic(auto, unfolding(crate::specs::Calls::streamon_row))]
    pub(crate) fn start(&mut self, t: u32)
        requires { first_refusal (streamon_row self.old.local t).refusals ≡ None }
        ensures { self.new ≡ record self.old { local = (streamon_row self.old.local t).next } }
    {
        if let Some(place) = self.place_of(t) {
            self.queues.start(place);
        }
    }

    /// Stops a queue.
    #[tactic(auto, unfolding(crate::specs::Calls::streamoff_row))]
    pub(crate) fn stop(&mut self, t: u32)
        requires { first_refusal (streamoff_row self.old.local t).refusals ≡ None }
        ensures { self.new ≡ record self.old { local = (streamoff_row self.old.local t).next } }
    {
        if let Some(place) = self.place_of(t) {
            self.queues.stop(place);
            remove_owed(&mut self.owed, t);
        }
    }

    /// Takes the first done buffer of a queue back.
    #[tactic(auto, unfolding(crate::specs::Calls::dqbuf_row))]
    pub(crate) fn take_back(&mut self, t: u32)
        requires { (dqbuf_row self.old.local t).waits ≡ false }
        ensures { self.new ≡ record self.old { local = (dqbuf_row self.old.local t).next } }
    {
        if let Some(place) = self.place_of(t) {
            self.queues.take_back(place);
        }
    }

    /// A buffer as its `qbuf` leaves it.
    #[tactic(auto, unfolding(crate::specs::Queue::queued_buffer))]
    fn queued_buffer(
        &self,
        t: u32,
        memory: Option<u64>,
        used: u32,
        ts: u32,
        buffer: &Buffer,
    ) -> Buffer
        ensures { result ≡ queued_buffer self.now.local t memory used ts buffer.now }
    {
        let length = self.length_from(memory, buffer);
        let queued = Buffer {
            state: BufferState::Queued,
            is_bad: false,
            length,
            memory: memory.or(buffer.memory),
            ..*buffer
        };
        if is_source(self.model, t) {
            Buffer {
                used: if used == 0 { length } else { used },
                timestamp: u64::from(ts),
                ..queued
            }
        } else {
            queued
        }
    }
}

/// The kind of memory with this number.
pub(crate) fn memory_kind(m: u32) -> MemoryKind
    ensures { result ≡ memory_kind m }
{
    if m == MEMORY_USERPTR {
        MemoryKind::UserPtr
    } else {
        MemoryKind::Mmap
    }
}

/// Removes what is owed of a queue.
fn remove_owed(owed: &mut Vec<Owed>, t: u32)
    ensures items { owed.new.items ≡ filter (λ o. not (o.queue == t)) owed.old.items }
    ensures len { vec_len owed.new ≤ vec_len owed.old }
    ensures capacity { vec_capacity owed.new ≡ vec_capacity owed.old }
{
    owed.retain(|entry| entry.queue != t);
}
