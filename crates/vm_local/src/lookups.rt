//! What a record tells of queues, buffers and memories.
ghost use Rattle.std.specs.Prelude.{◌≡◌, ◌&&◌, not, length, IfSome};
ghost use Rattle.v4l_format.specs.Fmt.{IsAdjusted};
ghost use Rattle.v4l_rules.specs.Formats.{source_format};
ghost use Rattle.vm_local.specs.State.{queue_kind, queue_of, buffer_of};
ghost use Rattle.vm_local.specs.Memory.{is_in_use, is_lent};
ghost use Rattle.vm_local.specs.Queue.{adjusted_for, is_empty, can_finish, first_done, flags_of, flag};
ghost use Rattle.vm_local.specs.Calls.{given_back};
ghost use Rattle.vm_local.specs.Steps.{head, head_buffer};
ghost use Rattle.vm_local.specs.Live.{is_live};

use crate::bound::MemoryKind;
use crate::buffer::Buffer;
use crate::buffers::NO_BUFFER;
use crate::names::{is_mapped, is_named};
use crate::record::Record;
use v4l_const::{BufFlags, FourCc};
use v4l_format::Fmt;
use v4l_rules::{adjust_from, first_format};

impl Record {
    /// The format of a queue.
    pub fn format_of(&self, t: u32) -> Fmt
        ensures value { result ≡ (queue_of self.now.local t).format }
        ensures adjusted { IsAdjusted result }
    {
        match self.queue(t) {
            Some(queue) => queue.format(),
            None => first_format(),
        }
    }

    /// The format that a queue takes where it is asked for this one.
    pub(crate) fn adjusted_for(&self, t: u32, f: FourCc, w: u32, h: u32) -> Fmt
        ensures value { result ≡ adjusted_for self.now.local t f w h }
        ensures adjusted { IsAdjusted result }
    {
        adjust_from(self.source_format(), self.model, t, f, w, h)
    }

    /// The format of the source queue, where the model has one.
    fn source_format(&self) -> Option<Fmt>
        ensures value { result ≡
            source_format queue_kind self.now.local.model self.now.local.queues }
        ensures adjusted { IfSome result IsAdjusted }
    {
        match self.model.source_queue() {
            Some(source) => Some(self.format_of(source)),
            None => None,
        }
    }

    /// The kind of memory of a queue's buffers; what it is while there are none has no meaning.
    pub fn memory_kind_of(&self, t: u32) -> MemoryKind
        ensures { result ≡ (queue_of self.now.local t).memory }
    {
        match self.queue(t) {
            Some(queue) => queue.memory_kind(),
            None => MemoryKind::Mmap,
        }
    }

    /// How many buffers a queue has.
    pub fn buffer_count(&self, t: u32) -> u32
        ensures { result ≡ length (queue_of self.now.local t).buffers }
    {
        match self.queue(t) {
            Some(queue) => queue.buffer_count(),
            None => 0,
        }
    }

    /// A buffer of a queue, one of no bytes where there is none.
    pub fn buffer_of(&self, t: u32, i: u32) -> Buffer
        ensures { result ≡ buffer_of (queue_of self.now.local t) i }
    {
        match self.queue(t) {
            Some(queue) => queue.buffer(i),
            None => NO_BUFFER,
        }
    }

    /// The flags of a buffer.
    #[tactic(auto, unfolding(crate::specs::Queue::flags_of))]
    pub fn flags_of(&self, buffer: &Buffer) -> u32
        ensures { result ≡ flags_of self.now.local buffer.now }
    {
        flag(BufFlags::MAPPED, is_mapped(&self.bound, buffer.memory))
            + flag(BufFlags::QUEUED, buffer.state.is_away())
            + flag(BufFlags::DONE, buffer.state.is_done())
            + flag(BufFlags::ERROR, buffer.is_bad)
            + self.model.timestamp_flag().0
    }

    /// The index of the buffer that the next frame takes from a queue.
    pub fn head(&self, t: u32) -> u32
        ensures { result ≡ head (queue_of self.now.local t) }
    {
        match self.queue(t) {
            Some(queue) => queue.head(),
            None => 0,
        }
    }

    /// The buffer that the next frame takes from a queue.
    pub(crate) fn head_buffer(&self, t: u32) -> Buffer
        ensures { result ≡ head_buffer (queue_of self.now.local t) }
    {
        match self.queue(t) {
            Some(queue) => queue.head_buffer(),
            None => NO_BUFFER,
        }
    }

    /// The number of a queue's next frame.
    pub fn next_sequence(&self, t: u32) -> u32
        ensures { result ≡ (queue_of self.now.local t).next_sequence }
    {
        match self.queue(t) {
            Some(queue) => queue.next_sequence(),
            None => 0,
        }
    }

    /// Whether a queue has done buffers.
    pub fn has_done(&self, t: u32) -> bool
        ensures { result ≡ not (is_empty (queue_of self.now.local t).done) }
    {
        match self.queue(t) {
            Some(queue) => queue.has_done(),
            None => false,
        }
    }

    /// The index of the first done buffer of a queue.
    pub(crate) fn first_done(&self, t: u32) -> u32
        ensures { result ≡ first_done (queue_of self.now.local t) }
    {
        match self.queue(t) {
            Some(queue) => queue.first_done(),
            None => 0,
        }
    }

    /// The buffer that a queue gives back next, Idle.
    pub(crate) fn given_back(&self, t: u32) -> Buffer
        ensures { result ≡ given_back (queue_of self.now.local t) }
    {
        match self.queue(t) {
            Some(queue) => queue.given_back(),
            None => NO_BUFFER,
        }
    }

    /// Whether a frame can be finished: all queues stream, and each has a queued buffer.
    pub fn can_finish(&self) -> bool
        ensures { result ≡ can_finish self.now.local }
    {
        self.queues.are_ready()
    }

    /// Whether the buffer of a memory is Queued or Owed, so that the guest may not read it.
    pub fn is_lent(&self, memory: u64) -> bool
        ensures { result ≡ is_lent self.now.local memory }
    {
        self.queues.lend(memory)
    }

    /// Whether the buffer of a memory isn't Idle, so that the guest may not write it.
    pub fn is_in_use(&self, memory: u64) -> bool
        ensures { result ≡ is_in_use self.now.local memory }
    {
        self.queues.use_memory(memory)
    }

    /// Whether a memory is live: it is that of a buffer that isn't Idle or that the device made, or
    /// a name is bound to it.
    pub fn is_live(&self, memory: u64) -> bool
        ensures { result ≡ is_live self.now.local memory }
    {
        self.queues.use_memory(memory) || self.queues.own(memory) || is_named(&self.bound, memory)
    }
}

/// A flag where it is set, else none.
fn flag(bit: BufFlags, on: bool) -> u32
    ensures { result ≡ flag bit.0 on }
{
    if on { bit.0 } else { 0 }
}
